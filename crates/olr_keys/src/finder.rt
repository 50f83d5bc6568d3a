//! What finds the keys of matchings, one after the other.

ghost use Rattle.std.specs.Prelude.{◌≡◌, List, AllPairs, Contains, Decides, IfOk, option_map};
ghost use Rattle.olr_keys.specs.Finder.{IsNext, IsPosition};
ghost use Rattle.olr_keys.specs.Key.{IsBefore, KeyValue};

use crate::key::Key;
use olr_base::NoMemory;
use std::alloc::Global;

/// What finds the keys of matchings in their order: by the total, and then by the ranks.
pub trait Finder {
    // The keys of all matchings, in order.
    ghost answers: { Self → List KeyValue };

    /// Whether a key is that of a matching.
    fn check(&self, key: &Key) -> bool
        ensures { Decides result (Contains (answers self.now) key.now) };

    /// The least key after `after`, or the least of all where that is `None`; `None` where no key
    /// comes after it. `after` has to be the key of a matching. The keys stay as they are, whatever
    /// the result.
    fn next(&mut self, alloc: Global, after: Option<&Key>) -> Result<Option<Key>, NoMemory>
        requires { IsPosition (answers self.old) (option_map (λ key. key.now) after) }
        ensures next { IfOk result
            (IsNext (answers self.old) (option_map (λ key. key.now) after.entry)) }
        ensures same { answers self.new ≡ answers self.old };

    // The keys rise strictly.
    ghost rise: { (finder : Self) → AllPairs IsBefore (answers finder) };
}
