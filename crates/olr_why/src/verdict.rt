//! The first thing that stands between a reference and a matching.

ghost use Rattle.std.specs.Prelude.{◌≡◌};
ghost use Rattle.olr_why.specs.Text.{number_of, verdict_word};

/// The first of these that holds. Points and legs are counted from 1; the leg of a number leads
/// from the point of that number to the next one.
#[derive(Clone, Copy, Debug, PartialEq, Eq)]
pub enum Verdict {
    /// The point of this number is the first that has more than 64 candidates.
    Crowded(usize),
    /// The point of this number is the first that has no candidate.
    Point(usize),
    /// The leg of this number is the first that admits no pair of candidates.
    Leg(usize),
    /// Each leg admits a pair, but no candidates of the points up to this number, one of each, have
    /// each two neighbours admitted; it is the first such number.
    Chain(usize),
    /// Nothing: there is a matching.
    Match,
}

impl Verdict {
    /// Its word.
    pub fn word(self) -> &'static str
        ensures { result.now ≡ verdict_word self }
    {
        match self {
            Verdict::Crowded(_) => "crowded",
            Verdict::Point(_) => "point",
            Verdict::Leg(_) => "leg",
            Verdict::Chain(_) => "chain",
            Verdict::Match => "match",
        }
    }

    /// The number of the point or the leg that it names, from 1, if it names one.
    pub fn number(self) -> Option<usize>
        ensures { result ≡ number_of self }
    {
        match self {
            Verdict::Crowded(number)
            | Verdict::Point(number)
            | Verdict::Leg(number)
            | Verdict::Chain(number) => Some(number),
            Verdict::Match => None,
        }
    }
}
