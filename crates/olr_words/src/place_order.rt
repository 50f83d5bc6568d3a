//! The orders of places, by the names that words give them.

ghost use Rattle.std.specs.Prelude.{option_map};
ghost use Rattle.olr_words.specs.Given.{IsOrderNamed};

use olr_likely::PlaceOrder;

/// The names of all.
pub const PLACE_ORDERS: &[&str] = &["total", "likely"];

/// The order of this name; that of totals for any other name, and where there is none.
pub fn place_order_named(name: Option<&str>) -> PlaceOrder
    ensures { IsOrderNamed (option_map (λ name. name.now) name.entry) result }
{
    match name {
        Some("likely") => PlaceOrder::Likely,
        _ => PlaceOrder::Total,
    }
}
