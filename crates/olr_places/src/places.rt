//! The places of a reference, by the matchings that were looked at.

ghost use Rattle.std.specs.Prelude.{◌≡◌};
ghost use Rattle.olr_places.specs.Looking.{Looked};
ghost use Rattle.olr_places.specs.Places.{ArePlacesOf, verdict_in};
ghost use Rattle.olr_places.specs.Verdict.{verdict_of};
ghost use Rattle.olr_places.specs.declared.limits.PlaceLimits.{PlaceLimits as Limits};

use crate::ending::{Ending, Verdict};
use crate::opener::Opener;
use olr_keys::Key;

/// The places of a reference: those that are listed, and what is known of further ones.
#[derive(Debug, Drop)]
pub struct Places {
    /// The matchings that opened the places that are listed, in order.
    pub openers: Vec<Opener>,
    /// How many matchings were looked at.
    pub looked: u32,
    /// The last matching that was looked at.
    pub last: Option<Key>,
    /// The gap of the second place, listed or not, in penalty points.
    pub margin: Option<u32>,
    /// Why looking ended.
    pub ending: Ending,
}

impl Places {
    /// Whether the match is unique.
    pub fn verdict(&self) -> Verdict
        ensures value { result ≡ verdict_in self.now }
        ensures verdict { (limits : Limits) (looked : Looked)
            → ArePlacesOf limits looked self.now → result ≡ verdict_of limits looked }
    {
        self.ending.verdict(self.looked, self.openers.len())
    }
}
