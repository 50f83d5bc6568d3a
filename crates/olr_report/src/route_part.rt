//! The parts of the route of a matching.

ghost use Rattle.std.specs.Prelude.{◌≡◌, option_map};
ghost use Rattle.serde_json.specs.Data.{string};
ghost use Rattle.olr_report.specs.RoutePart.{part_drawn, part_word};

/// A part of the joined route of a matching of a line.
#[derive(Clone, Copy, Debug, PartialEq, Eq)]
pub enum RoutePart {
    /// The whole of it.
    Route,
    /// What lies between the earliest distances of the offsets.
    Outer,
    /// What lies between the latest ones.
    Inner,
}

impl RoutePart {
    /// Its word.
    pub fn word(self) -> &'static str
        ensures { result.now ≡ part_word self }
    {
        match self {
            RoutePart::Route => "route",
            RoutePart::Outer => "outer",
            RoutePart::Inner => "inner",
        }
    }
}

/// The word for the part of the route that is drawn, if one is.
pub fn word_drawn(part: Option<RoutePart>) -> Option<&'static str>
    ensures { option_map (λ word. string word.now) result ≡ part_drawn part }
{
    let word = part?.word();
    Some(word)
}
