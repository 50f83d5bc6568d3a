//! How great a remaining total can be.

ghost use Rattle.std.specs.Prelude.{◌≡◌, ◌+◌, ◌≤◌};
ghost use Rattle.olr_keys.specs.Rows.{greatest, greatest_leg, width_of};
ghost use Rattle.olr_keys.specs.Table.{IsTable, max_total};

use crate::table::Table;

/// One more than the sum of the greatest penalty of each layer and of the legs between each two
/// neighbours. Each remaining total is less.
#[tactic(auto, using(crate::proofs::Sizes::sum_more, crate::proofs::Sizes::layer_at_most, crate::proofs::Sizes::legs_at_most, crate::proofs::Sizes::width_is))]
pub(crate) fn width(table: &Table) -> usize
    ensures value { result ≡ width_of table.now }
    ensures at_most { result ≤ max_total + 1 }
    ensures sound { IsTable table.now }
{
    let mut sum = 1;
    for layer in 0..table.layers() {
        sum += usize::from(greatest(table.layer(layer)));
        sum += usize::from(greatest_leg(table.legs_from(layer)));
    }
    sum
}

/// The greatest of these penalties, 0 where there is none.
#[tactic(auto, using(crate::proofs::Sizes::greatest_more))]
fn greatest(penalties: &[u16]) -> u16
    ensures { result ≡ greatest penalties.now }
{
    let mut most = 0;
    for penalty in penalties {
        most = most.max(*penalty);
    }
    most
}

/// The greatest penalty of these legs, 0 where there is none.
#[tactic(auto, using(crate::proofs::Sizes::greatest_leg_more))]
fn greatest_leg(legs: &[Option<u8>]) -> u8
    ensures { result ≡ greatest_leg legs.now }
{
    let mut most = 0;
    for leg in legs {
        most = most.max(leg.unwrap_or(0));
    }
    most
}
