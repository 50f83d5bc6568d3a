//! The JSON of what is told with probabilities.

ghost use Rattle.std.specs.Prelude.{◌≡◌};
ghost use Rattle.serde_json.specs.Data.{string};
ghost use Rattle.olr_confidence.specs.Json.{kind_word, name_value, range_object, reason_object};

use crate::asked::AskedName;
use crate::confidence::MapRange;
use crate::reason::{Reason, ReasonKind};
use olr_text::{ToJson, send_object};
use serde::Serializer;

impl ReasonKind {
    /// Its word.
    fn word(self) -> &'static str
        ensures { result.now ≡ kind_word self }
    {
        match self {
            ReasonKind::TurningBack => "turning_back",
            ReasonKind::Longer => "longer",
            ReasonKind::Shorter => "shorter",
            ReasonKind::Distance => "distance",
            ReasonKind::Direction => "direction",
            ReasonKind::End => "end",
            ReasonKind::Behind => "behind",
            ReasonKind::Lines => "lines",
        }
    }
}

/// The word of what a reason is about.
impl<On> ToJson<On> for ReasonKind {
    ghost value = { λ _ kind. string (kind_word kind) };

    fn send<S: Serializer>(&self, on: &On, out: &mut S) -> Result<(), S::Error> {
        self.word().send(on, out)
    }
}

/// The object of a reason.
impl<On> ToJson<On> for Reason {
    ghost value = { λ _. reason_object };

    fn send<S: Serializer>(&self, on: &On, out: &mut S) -> Result<(), S::Error> {
        send_object!(on, out, { "at": self.at, "by": self.by, "kind": self.kind })
    }
}

/// The object of how different the sender's map is.
impl<On> ToJson<On> for MapRange {
    ghost value = { λ _. range_object };

    fn send<S: Serializer>(&self, on: &On, out: &mut S) -> Result<(), S::Error> {
        send_object!(on, out, { "high": self.high, "low": self.low, "value": self.value })
    }
}

/// The text of the name of a number.
impl<On> ToJson<On> for AskedName {
    ghost value = { λ _. name_value };

    fn send<S: Serializer>(&self, on: &On, out: &mut S) -> Result<(), S::Error> {
        self.text().send(on, out)
    }
}
