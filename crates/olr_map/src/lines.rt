//! The lines of a file.

ghost use Rattle.std.specs.Prelude.{◌≡◌, ℕ, ◌+◌, ◌<◌, ◌≤◌, ⊤, List, [], ◌∷◌, ◌++◌};
ghost use Rattle.std.specs.Prelude.{map, length};
ghost use Rattle.std.specs.Prelude.{IfOk, IfErr, OnOk, MatchBool, MatchResult};
ghost use Rattle.olr_base.specs.Coordinates.{coordinates_of};
ghost use Rattle.olr_map.specs.inner.Ending.{FaultOfFile};
ghost use Rattle.olr_map.specs.Files.{IsReadWhole};
ghost use Rattle.olr_map.specs.Rows.{IsLine};
ghost use Rattle.olr_road.specs.RoadMap.{HasEqualNeighbours, Node, line_of};
ghost use Rattle.olr_map.specs.Tables.{lines_table, IsLinesFault, IsLineSet};
ghost use Rattle.olr_road.specs.Entries.{nodes_of};
ghost use Rattle.olr_map.specs.inner.Reading.{SpellsLine, HasEnds, IsLineError, IsLateFault, HasText};

use crate::fault::MapFault;
use crate::node_index::{NodeIndex, find_node};
use crate::rows::{LineRow, RowError, numbers_of, shape_at};
use crate::table::{Stop, TableFile, has_names, read_table};
use olr_base::{Degrees, NoMemory};
use olr_index::{keys_of, sort_or_repeat};
use olr_records::{File, Record, Source};
use olr_road::{Line, LineSet};
use std::alloc::Global;

/// The most lines of a map.
const LINES: u32 = 200_000;

/// Whether two places are the same one.
fn is_same(one: Degrees, other: Degrees) -> bool
    ensures { MatchBool result
        (coordinates_of one ≡ coordinates_of other)
        (coordinates_of one ≡ coordinates_of other → ⊥) }
{
    if one.lon != other.lon {
        return false;
    }
    if one.lat != other.lat {
        return false;
    }
    true
}

/// Whether two neighbouring points are equal.
#[tactic(auto, using(crate::proofs::Neighbours::equal_among, crate::proofs::Neighbours::one_more_differs))]
fn has_equal_neighbours(points: &[Degrees]) -> bool
    ensures { MatchBool result
        (HasEqualNeighbours (map coordinates_of points.now))
        (HasEqualNeighbours (map coordinates_of points.now) → ⊥) }
{
    for next in 1..points.len() {
        if is_same(points[next - 1], points[next]) {
            return true;
        }
    }
    false
}

/// Puts the points of a line into `points`, in place of those that it has.
fn join_points(
    points: &mut Vec<Degrees>,
    first: Degrees,
    shape: &[Degrees],
    last: Degrees,
) -> Result<(), NoMemory>
    ensures { OnOk result (points.new.items ≡ first ∷ shape.now ++ last ∷ []) }
{
    points.clear();
    points.push(first)?;
    points.extend_from_slice(shape)?;
    points.push(last)?;
    Ok(())
}

/// The nodes at which a line starts and ends: the rank of each, and where it lies.
#[derive(Clone, Copy)]
struct Ends {
    from: u32,
    first: Degrees,
    to: u32,
    last: Degrees,
}

/// The nodes of a line's ends; none where there is no such node.
fn ends_of(nodes: &NodeIndex, row: &LineRow) -> Option<Ends>
    ensures { HasEnds (nodes_of nodes.now) row.now result }
{
    let (from, first) = find_node(nodes, row.from)?;
    let (to, last) = find_node(nodes, row.to)?;
    Some(Ends {
        from,
        first,
        to,
        last,
    })
}

/// The numbers of a record's line and the nodes of its ends; the places of its shape go into
/// `shape`, in place of those that it has.
fn read_line(
    row: &Record,
    nodes: &NodeIndex,
    shape: &mut Vec<Degrees>,
) -> Result<Result<(LineRow, Option<Ends>), RowError>, NoMemory>
    ensures { IfOk result (λ found. MatchResult found
        (λ line. SpellsLine row.now (map coordinates_of shape.new.items) line.0
        × HasEnds (nodes_of nodes.now) line.0 line.1)
        (IsLineError row.now)) }
{
    let numbers = match numbers_of(row) {
        Ok(numbers) => numbers,
        Err(error) => return Ok(Err(error)),
    };
    // Looked up before the shape is parsed, so that the processor fetches the nodes meanwhile.
    let ends = ends_of(nodes, &numbers);
    if shape_at(row, 6, shape)? {
        Ok(Ok((numbers, ends)))
    } else {
        Ok(Err(RowError::Column(7)))
    }
}

/// Makes a line of a record's row. Its points go into `points`, in place of those that it has.
fn make_line(
    row: &LineRow,
    ends: Option<Ends>,
    shape: &[Degrees],
    number: u32,
    points: &mut Vec<Degrees>,
) -> Result<Result<Line, MapFault>, NoMemory>
    requires { length shape.now ≤ 64 }
    ensures line { IfOk result (λ made. (nodes : List Node) (fields : List (List ℕ))
        → SpellsLine fields (map coordinates_of shape.now) row.now → HasEnds nodes row.now ends
        → MatchResult made
        (λ line. IsLine nodes fields (line_of line (map coordinates_of points.new.items)))
        (IsLateFault nodes fields number)) }
    ensures counts { IfOk result (λ made. MatchResult made
        (λ line. (1 ≤ length points.new.items) × (length points.new.items ≤ 66)) (λ _. ⊤)) }
{
    let Some(ends) = ends else {
        return Ok(Err(MapFault::UnknownNode(number)));
    };
    if row.length == 0 {
        return Ok(Err(MapFault::ZeroLength(number)));
    }
    join_points(points, ends.first, shape, ends.last)?;
    if has_equal_neighbours(points) {
        return Ok(Err(MapFault::Degenerate(number)));
    }
    Ok(Ok(Line {
        id: row.id,
        from: ends.from,
        to: ends.to,
        class: row.class,
        form: row.form,
        length: row.length,
    }))
}

/// The file of lines.
#[derive(Drop)]
struct LineFile<'a> {
    nodes: &'a NodeIndex,
    lines: LineSet,
    /// The shape of the record at hand.
    shape: Vec<Degrees>,
    /// The points of its line.
    points: Vec<Degrees>,
}

impl<'a> TableFile for LineFile<'a> {
    ghost use Rattle.std.specs.Prelude.{⊤};
    ghost use Rattle.olr_road.specs.RoadMap.{Node, RoadLine};

    ghost Row = { RoadLine };

    ghost Earlier = { List Node };

    ghost table_of = { lines_table };

    ghost before = { λ file. nodes_of file.nodes.now };

    ghost rows = { λ file. file.lines };

    ghost IsSound = { λ _. ⊤ };

    fn file(&self) -> File {
        File::Lines
    }

    fn limit(&self) -> u32 {
        LINES
    }

    fn is_header(&self, row: &Record) -> bool {
        let names = ["id", "from", "to", "class", "form", "length", "shape"];
        has_names(row, &names)
    }

    fn add(&mut self, row: &Record) -> Result<Option<Stop>, NoMemory> {
        let number = self.lines.count() + 1;
        let (numbers, ends) = match read_line(row, self.nodes, &mut self.shape)? {
            Ok(line) => line,
            Err(error) => {
                let fault = error.in_record(File::Lines, number);
                return Ok(Some(Stop { fault, key: None }));
            }
        };
        match make_line(&numbers, ends, &self.shape, number, &mut self.points)? {
            Ok(line) => {
                self.lines.push(line, &self.points)?;
                Ok(None)
            }
            Err(fault) => {
                let key = Some(numbers.id);
                Ok(Some(Stop { fault, key }))
            }
        }
    }

    fn keys(&self, alloc: Global) -> Result<Vec<u64>, NoMemory> {
        let ids = self.lines.ids(alloc)?;
        Ok(ids)
    }

    fn sort(&mut self, alloc: Global) -> Result<Option<usize>, NoMemory> {
        let repeat = self.lines.sort_or_repeat(alloc)?;
        Ok(repeat)
    }
}

/// The lines of a source, by rising id. Its bytes go into `text`.
///
/// # Errors
///
/// The fault of the text, [`MapFault::ReadFailed`] or [`MapFault::NoMemory`].
#[tactic(auto, using(crate::proofs::LineFaults::lines_settled))]
pub(crate) fn read_lines<S: Source>(
    alloc: Global,
    source: &mut S,
    text: &mut Vec<u8>,
    nodes: &NodeIndex,
) -> Result<LineSet, MapFault>
    ensures lines { IfOk result (λ rows. HasText (S.left source.old)
        (λ text. IsLineSet (nodes_of nodes.now) text rows)) }
    ensures whole { OnOk result (IsReadWhole S.left S.failed source.old source.new) }
    ensures fault { IfErr result (FaultOfFile S.left S.failed source.old source.new
        File.Lines (IsLinesFault (nodes_of nodes.now))) }
{
    let mut file = LineFile {
        nodes,
        lines: LineSet::new(alloc),
        shape: Vec::new(alloc),
        points: Vec::new(alloc),
    };
    read_table(alloc, source, text, &mut file)?;
    Ok(file.lines)
}
