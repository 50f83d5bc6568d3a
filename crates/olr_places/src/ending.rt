//! Why looking at matchings ended, and what that says about the match.

ghost use Rattle.std.specs.Prelude.{◌≡◌};
ghost use Rattle.olr_places.specs.Looking.{key_behind};
ghost use Rattle.olr_places.specs.Verdict.{verdict_by, verdict_word};

use olr_keys::Key;

/// Why looking ended.
#[derive(Clone, Copy, Debug, PartialEq, Eq)]
pub enum Ending {
    /// No matching remained.
    NoMore,
    /// The last matching that was looked at opened a place, and its gap, which is this, is greater
    /// than what is asked for. Each matching behind it has such a gap, too.
    Beyond(u32),
    /// As many matchings were looked at as were asked for, or the next one would open a place too
    /// many.
    Cut,
}

impl Ending {
    /// The key behind which looking would go on, where this is why it ended and `last` the key of
    /// the last matching that was looked at: `last` where looking was cut off, else none.
    pub fn key_behind(self, last: Option<Key>) -> Option<Key>
        ensures { result ≡ key_behind self last }
    {
        match self {
            Ending::NoMore | Ending::Beyond(_) => None,
            Ending::Cut => last,
        }
    }

    /// Whether the match is unique, where this is why looking ended: by how many matchings were
    /// `looked` at, and how many places are `listed`.
    pub fn verdict(self, looked: u32, listed: usize) -> Verdict
        ensures { result ≡ verdict_by looked listed self }
    {
        if looked == 0 {
            return Verdict::None;
        }
        if listed >= 2 {
            return Verdict::Ambiguous;
        }
        match self {
            Ending::NoMore | Ending::Beyond(_) => Verdict::Unique,
            Ending::Cut => Verdict::Open,
        }
    }
}

/// Whether a match is unique.
#[derive(Clone, Copy, Debug, PartialEq, Eq)]
pub enum Verdict {
    /// There is no matching.
    None,
    /// There is one place, and no further one within the gap.
    Unique,
    /// There are two places or more.
    Ambiguous,
    /// One place was found before looking was cut off.
    Open,
}

impl Verdict {
    /// Its word.
    pub fn word(self) -> &'static str
        ensures { result.now ≡ verdict_word self }
    {
        match self {
            Verdict::None => "none",
            Verdict::Unique => "unique",
            Verdict::Ambiguous => "ambiguous",
            Verdict::Open => "open",
        }
    }
}
