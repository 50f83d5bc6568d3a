//! What follows from the definitions, in other words.

ghost use Rattle.std.specs.Prelude.{◌≡◌, ◌≢◌, ◌++◌, ◌∷◌, [], List, ℕ};
ghost use Rattle.olr_messages.specs.Content.{IsMessageOfLine, Message};
ghost use Rattle.olr_messages.specs.Lines.{lines_of, record_of};
ghost use Rattle.olr_messages.specs.Messages.{HasNoLf};

/// The first line is what stands before the first LF, and the other lines are those of what stands
/// behind it. Where there is no LF, all of the input is a line, unless it is empty.
pub fn lines()
    ensures first { (line rest : List ℕ) → HasNoLf line
        → lines_of (line ++ 10 ∷ rest) ≡ line ∷ lines_of rest }
    ensures last { (line : List ℕ) → HasNoLf line → line ≢ [] → lines_of line ≡ line ∷ [] }
    ensures empty { lines_of [] ≡ [] }
{}

/// The record of a line is what stands before a CR at the line's end.
pub fn record_before_cr()
    ensures { (bytes : List ℕ) → record_of (bytes ++ 13 ∷ []) ≡ bytes }
{}

/// A line says one thing.
#[tactic(auto, using(crate::proofs::Once::message_once))]
pub fn one_message()
    ensures { (line : List ℕ) (message other : Message) → IsMessageOfLine line message
        → IsMessageOfLine line other → message ≡ other }
{}
