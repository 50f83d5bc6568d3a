//! What is shown of a line of a map, in both formats.

ghost use Rattle.std.specs.Prelude.{◌≡◌};
ghost use Rattle.olr_route.specs.Route.{id_at};
ghost use Rattle.olr_why.specs.Text.{class_at, form_at};

use olr_road::Map;

/// What is shown lies on a map, and where in coordinates, if `spots` are asked for.
#[derive(Clone, Copy)]
pub(crate) struct OnMap<'a> {
    pub(crate) map: &'a Map,
    pub(crate) spots: bool,
}

/// The class, the form and the id of the line of a rank; each 0 where the map has no such line.
pub(crate) fn shown_line(map: &Map, line: u32) -> (u8, u8, u64)
    ensures { result ≡ (class_at map.now line, form_at map.now line, id_at map.now line) }
{
    if line < map.count() {
        let line = map.line(line);
        (line.class, line.form, line.id)
    } else {
        (0, 0, 0)
    }
}
