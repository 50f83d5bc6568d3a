//! The parts of a route, by the names that words give them.

ghost use Rattle.std.specs.Prelude.{option_map};
ghost use Rattle.olr_words.specs.Given.{IsPartNamed};

use olr_report::RoutePart;

/// The names of all.
pub const ROUTE_PARTS: &[&str] = &["route", "outer", "inner"];

/// The part of this name; the outer one for any other name, and where there is none.
pub fn route_part_named(name: Option<&str>) -> RoutePart
    ensures { IsPartNamed (option_map (λ name. name.now) name.entry) result }
{
    match name {
        Some("route") => RoutePart::Route,
        Some("inner") => RoutePart::Inner,
        _ => RoutePart::Outer,
    }
}
