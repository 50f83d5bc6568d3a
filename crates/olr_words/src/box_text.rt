//! The text of a box of coordinates: four signed numbers joined by commas.

ghost use Rattle.std.specs.Prelude.{◌≡◌, MatchOption, ℕ, ℤ, List};
ghost use Rattle.olr_words.specs.BoxText.{BeginsWithEdge, IsBoxText, SpellsBox, SpellsEdge};
ghost use Rattle.olr_words.specs.BoxText.{without_minus};

/// The edges of a box, in microdegrees, in the order in which its text has them.
#[derive(Clone, Copy, Debug, PartialEq, Eq)]
pub(crate) struct Edges {
    pub(crate) west: i32,
    pub(crate) south: i32,
    pub(crate) east: i32,
    pub(crate) north: i32,
}

/// The most digits of a number.
const MOST_DIGITS: usize = 16;

/// What stands behind a minus, or the whole text where it begins with none.
fn without_minus(text: &str) -> &str
    ensures { result.now ≡ without_minus text.now }
{
    text.strip_prefix('-').unwrap_or(text)
}

/// The signed number that a text spells: 1 to 16 digits, behind a minus or not. None where it spells
/// none, or one that 32 bits can't hold.
fn edge_in(text: &str) -> Option<i32>
    ensures { MatchOption result ((z : ℤ) → ¬ (SpellsEdge text.now z)) (SpellsEdge text.now) }
{
    if without_minus(text).len() > MOST_DIGITS || text.starts_with('+') {
        return None;
    }
    text.parse::<i32>().ok()
}

/// The signed number that a text spells before its first comma, and what stands behind that comma.
/// None where there is no comma, or the text before it spells no such number.
fn first_edge(text: &str) -> Option<(i32, &str)>
    ensures { MatchOption result ((z : ℤ) (rest : List ℕ) → ¬ (BeginsWithEdge text.now z rest))
        (λ first. BeginsWithEdge text.now first.0 first.1.now) }
{
    let (edge, rest) = text.split_once(',')?;
    Some((edge_in(edge)?, rest))
}

/// The edges that a text spells: the west, the south, the east and the north, joined by commas. None
/// where it spells none, or one that 32 bits can't hold.
pub(crate) fn edges_in(text: &str) -> Option<Edges>
    ensures { MatchOption result (¬ (IsBoxText text.now)) (SpellsBox text.now) }
{
    let (west, rest) = first_edge(text)?;
    let (south, rest) = first_edge(rest)?;
    let (east, rest) = first_edge(rest)?;
    let north = edge_in(rest)?;
    Some(Edges {
        west,
        south,
        east,
        north,
    })
}
