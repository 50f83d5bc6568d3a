//! Lines of a map as JSON.

ghost use Rattle.std.specs.Prelude.{◌≡◌, IfOk, codes, map, string_bytes};
ghost use Rattle.olr_lines.specs.Json.{line_value, lines_object};
ghost use Rattle.serde_json.specs.Data.{boolean, member, no_members, object};
ghost use Rattle.olr_text.specs.JsonValues.{IsJsonLine, array_of};

use crate::lines::LinesInBox;
use crate::lines_on::{LinesOn, RankedLine};
use olr_base::NoMemory;
use olr_road::Map;
use olr_text::{ToJson, send_object, to_json_line};
use serde::Serializer;
use std::alloc::Global;

/// Lines that are shown, and whether there are others.
#[derive(Drop)]
struct ShownLines {
    lines: Vec<RankedLine>,
    more: bool,
}

/// The object of the lines.
impl ToJson<LinesOn<'_>> for ShownLines {
    ghost value = { λ on shown. object (
        member (codes "lines") (array_of (λ line. line_value on.map.now on.shapes line.rank) shown.lines.items) (
        member (codes "more") (boolean shown.more) no_members)) };

    fn send<S: Serializer>(&self, on: &LinesOn<'_>, out: &mut S) -> Result<(), S::Error> {
        send_object!(on, out, { "lines": self.lines, "more": self.more })
    }
}

/// The lines of these ranks.
fn ranked(alloc: Global, ranks: &[u32]) -> Result<Vec<RankedLine>, NoMemory>
    ensures { IfOk result (λ lines. map (λ line. line.rank) lines.items ≡ ranks.now) }
{
    let mut lines = Vec::with_capacity(alloc, ranks.len())?;
    for &rank in ranks {
        lines.push(RankedLine { rank })?;
    }
    Ok(lines)
}

/// The line of JSON of lines of a map, with their points in microdegrees where `shapes` are asked
/// for.
///
/// # Errors
///
/// [`NoMemory`] where the allocator refused memory.
pub fn lines_json(
    alloc: Global,
    map: &Map,
    found: &LinesInBox,
    shapes: bool,
) -> Result<String, NoMemory>
    ensures { IfOk result (λ text.
        IsJsonLine (lines_object map.now shapes found.now) (string_bytes text)) }
{
    let lines = ranked(alloc, &found.ranks)?;
    let shown = ShownLines {
        lines,
        more: found.more,
    };
    let text = to_json_line(alloc, &LinesOn { alloc, map, shapes }, &shown)?;
    Ok(text)
}
