//! A line of a map as it is shown.

ghost use Rattle.std.specs.Prelude.{◌≡◌, ◌<◌, length, option_map};
ghost use Rattle.olr_lines.specs.Json.{line_value, node_id_at, points_if, points_value, shown_object};
ghost use Rattle.olr_text.specs.JsonValues.{or_null};

use olr_base::Degrees;
use olr_road::{Line, Map};
use olr_text::{ToJson, send_object};
use serde::Serializer;
use std::alloc::Global;

/// The map whose lines are shown, with their points where `shapes` are asked for.
#[derive(Clone, Copy)]
pub(crate) struct LinesOn<'a> {
    pub(crate) alloc: Global,
    pub(crate) map: &'a Map,
    pub(crate) shapes: bool,
}

/// The line of this rank.
#[derive(Clone, Copy)]
pub(crate) struct RankedLine {
    pub(crate) rank: u32,
}

/// What is shown of a line: the line, the ids of the nodes at which it starts and ends, and its
/// points where shapes are asked for.
#[derive(Clone, Copy)]
struct ShownLine<'a> {
    line: Line,
    from: u64,
    to: u64,
    points: Option<&'a [Degrees]>,
}

/// The id of the node of a rank.
fn node_id(map: &Map, rank: u32) -> u64
    ensures { result ≡ node_id_at map.now rank }
{
    if rank < map.nodes() {
        map.node(rank).id
    } else {
        0
    }
}

impl<'a> LinesOn<'a> {
    /// The points of the line of a rank, where shapes are asked for.
    fn points_if_asked(&self, rank: u32) -> Option<&'a [Degrees]>
        requires { rank < length self.now.map.now.lines }
        ensures { option_map points_value result ≡ points_if self.now.map.now self.now.shapes rank }
    {
        if self.shapes {
            Some(self.map.points(rank))
        } else {
            None
        }
    }

    /// What is shown of the line of a rank, if there is one.
    fn shown(&self, rank: u32) -> Option<ShownLine<'a>>
        ensures { or_null shown_object result ≡ line_value self.now.map.now self.now.shapes rank }
    {
        if rank >= self.map.count() {
            return None;
        }
        let line = self.map.line(rank);
        Some(ShownLine {
            line,
            from: node_id(self.map, line.from),
            to: node_id(self.map, line.to),
            points: self.points_if_asked(rank),
        })
    }
}

/// The object of a line.
impl<On> ToJson<On> for ShownLine<'_> {
    ghost value = { λ _. shown_object };

    fn send<S: Serializer>(&self, on: &On, out: &mut S) -> Result<(), S::Error> {
        let ShownLine {
            line,
            from,
            to,
            points,
        } = *self;
        send_object!(on, out, {
            "class": line.class,
            "form": line.form,
            "from": from,
            "id": line.id,
            "length": line.length,
            "shape"?: points,
            "to": to,
        })
    }
}

/// The object of a line of the map, null where there is none of this rank.
impl ToJson<LinesOn<'_>> for RankedLine {
    ghost value = { λ on line. line_value on.map.now on.shapes line.rank };

    fn send<S: Serializer>(&self, on: &LinesOn<'_>, out: &mut S) -> Result<(), S::Error> {
        on.shown(self.rank).send(on, out)
    }
}
