//! Laws of directions and sectors. Each is the contract of an empty function.

ghost use Rattle.std.specs.Prelude.{◌≡◌, ◌≢◌, ℕ, ◌+◌, ◌-◌, ◌%◌, ◌<◌, ◌≤◌, pos, ◌<ℤ◌, min, Option, Some};
ghost use Rattle.olr_metric.specs.Difference.{difference};
ghost use Rattle.olr_metric.specs.Sector.{Direction, IsSector, cross, zero_direction, ray, ray_to, turned};

/// The first ray points north, and each one lies clockwise of the one before, by less than half a
/// turn. Eight rays make a quarter turn.
pub fn rays()
    ensures north { ray 0 ≡ ray_to 0 1000000 }
    ensures clockwise { (s : ℕ) → cross (ray s) (ray (s + 1)) <ℤ pos 0 }
    ensures quarter { (s : ℕ) → ray (s + 8) ≡ turned (ray s) }
{}

/// Each direction lies in exactly one sector. The zero direction lies in none.
#[tactic(auto, using(crate::proofs::BearingSectors::some_sector, crate::proofs::BearingSectors::one_sector, crate::proofs::BearingSectors::no_sector))]
pub fn one_sector()
    ensures exists { (d : Direction) → d ≢ zero_direction → (s : ℕ) × IsSector d s }
    ensures one { (d : Direction) (s t : ℕ) → IsSector d s → IsSector d t → s ≡ t }
    ensures none { (s : ℕ) → IsSector zero_direction s → ⊥ }
{}

/// The difference of sectors is symmetric and at most half a turn. It goes round: turning both
/// sectors alike changes nothing, and the difference to the sector k further is the lesser of k and
/// 32 - k.
pub fn differences()
    ensures symmetric { (a b : ℕ) → difference (Some a) b ≡ difference (Some b) a }
    ensures at_most { (a : Option ℕ) (b : ℕ) → difference a b ≤ 16 }
    ensures turned { (a b k : ℕ) → a < 32 → b < 32
        → difference (Some ((a + k) % 32)) ((b + k) % 32) ≡ difference (Some a) b }
    ensures further { (a k : ℕ) → a < 32 → k ≤ 32
        → difference (Some a) ((a + k) % 32) ≡ min k (32 - k) }
{}
