//! The tolerances that stand for those which the words don't give.

ghost use Rattle.std.specs.Prelude.{option_map};
ghost use Rattle.olr_words.specs.Given.{IsProfileNamed};
ghost use Rattle.olr_words.specs.Profile.{AreOfProfile};

use olr_candidates::Tolerances;

/// Which tolerances stand for those that aren't given.
#[derive(Clone, Copy, Debug, PartialEq, Eq)]
pub enum Profile {
    /// Those of the program: [`Tolerances::default`].
    Program,
    /// Those for a feed whose sender has another map than the reader: points lie close to their
    /// roads and lengths are nearly the same there, but bearings and classes differ.
    Feed,
}

impl Profile {
    /// The names of all, as words give them.
    pub const NAMES: &'static [&'static str] = &["program", "feed"];

    /// The one of this name; that of the program for any other name, and where there is none.
    pub fn named(name: Option<&str>) -> Profile
        ensures { IsProfileNamed (option_map (λ name. name.now) name.entry) result }
    {
        match name {
            Some("feed") => Profile::Feed,
            _ => Profile::Program,
        }
    }

    /// Its tolerances.
    pub fn tolerances(self) -> Tolerances
        ensures { AreOfProfile self result }
    {
        match self {
            Profile::Program => Tolerances::default(),
            Profile::Feed => Tolerances {
                radius: 75,
                bearing: 6,
                class: 7,
                lowest: 4,
                percent: 15,
                slack: 300,
            },
        }
    }
}
