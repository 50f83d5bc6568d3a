//! The canonical text of a map: one text for all files of one map, and different texts for
//! different maps.

ghost use Rattle.std.specs.Prelude.{◌≡◌, ◌++◌, ◌<◌, ◌≤◌, [], length, map, slice_index};
ghost use Rattle.std.specs.Prelude.{slice_index_or, string_bytes, IfOk, OnOk};
ghost use Rattle.olr_road.specs.RoadMap.{node_ids};
ghost use Rattle.olr_road.specs.Canonical.{ban_fields, line_fields, row_text};
ghost use Rattle.olr_road.specs.Canonical.{nodes_part, lines_part, bans_part};
ghost use Rattle.olr_road.specs.Canonical.{canonical_rows, canonical_text};

use crate::ban::Ban;
use crate::canonical_row::{push_heading, push_node, push_shape};
use crate::line::Line;
use crate::map::Map;
use olr_base::NoMemory;
use olr_text::Decimal;
use std::alloc::Global;
use std::fmt::Write;

impl Map {
    /// The id of the node of a rank.
    fn node_id(&self, rank: u32) -> u64
        requires { rank < length self.now.nodes }
        ensures { result ≡ slice_index (node_ids self.now.nodes) rank }
    {
        let node = self.node(rank);
        node.id
    }

    /// Adds the row of the line of a rank.
    fn push_line(&self, text: &mut String, rank: u32) -> Result<(), NoMemory>
        requires { rank < length self.now.lines }
        ensures { OnOk result (string_bytes text.new ≡ string_bytes text.old ++ slice_index_or
            (map row_text (map (line_fields self.now.nodes) self.now.lines)) rank []) }
    {
        let Line {
            id,
            from,
            to,
            class,
            form,
            length,
        } = self.line(rank);
        let (from, to) = (self.node_id(from), self.node_id(to));
        let (id, from, to) = (Decimal(id), Decimal(from), Decimal(to));
        let (class, form, length) = (Decimal(class), Decimal(form), Decimal(length));
        let points = self.points(rank);
        write!(text, "{id},{from},{to},{class},{form},{length},")?;
        push_shape(text, &points[1..points.len() - 1])?;
        text.push_str("\n")?;
        Ok(())
    }

    /// Adds the row of a ban.
    fn push_ban(&self, text: &mut String, ban: Ban) -> Result<(), NoMemory>
        requires from { ban.from < length self.now.lines }
        requires to { ban.to < length self.now.lines }
        ensures { OnOk result (string_bytes text.new
            ≡ string_bytes text.old ++ row_text (ban_fields self.now.lines ban)) }
    {
        let (from, to) = (self.line_id(ban.from), self.line_id(ban.to));
        write!(text, "{},{}\n", Decimal(from), Decimal(to))?;
        Ok(())
    }

    /// Adds a row of the part of the nodes: the heading for 0, and else the row of a node.
    fn push_row_of_nodes(&self, text: &mut String, number: u32) -> Result<(), NoMemory>
        requires { number ≤ length self.now.nodes }
        ensures { OnOk result (string_bytes text.new ≡ string_bytes text.old
            ++ slice_index_or (map row_text (nodes_part self.now)) number []) }
    {
        if number == 0 {
            push_heading(text, "nodes", self.nodes())?;
        } else {
            push_node(text, self.node(number - 1))?;
        }
        Ok(())
    }

    /// Adds a row of the part of the lines: the heading for 0, and else the row of a line.
    fn push_row_of_lines(&self, text: &mut String, number: u32) -> Result<(), NoMemory>
        requires { number ≤ length self.now.lines }
        ensures { OnOk result (string_bytes text.new ≡ string_bytes text.old
            ++ slice_index_or (map row_text (lines_part self.now)) number []) }
    {
        if number == 0 {
            push_heading(text, "lines", self.count())?;
        } else {
            self.push_line(text, number - 1)?;
        }
        Ok(())
    }

    /// Adds a row of the part of the bans: the heading for 0, and else the row of a ban.
    fn push_row_of_bans(&self, text: &mut String, number: u32) -> Result<(), NoMemory>
        requires { number ≤ length self.now.bans }
        ensures { OnOk result (string_bytes text.new ≡ string_bytes text.old
            ++ slice_index_or (map row_text (bans_part self.now)) number []) }
    {
        let bans = self.bans();
        if number == 0 {
            push_heading(text, "bans", bans.len() as u32)?;
        } else {
            self.push_ban(text, bans[number as usize - 1])?;
        }
        Ok(())
    }

    /// How many rows its canonical text has: three headings, and a row for each node, line and ban.
    pub fn canonical_rows(&self) -> u32
        ensures { result ≡ length (canonical_rows self.now) }
    {
        let bans = self.bans().len() as u32;
        3 + self.nodes() + self.count() + bans
    }

    /// Adds a row of its canonical text, by its number, counted from 0. So the text can be used a
    /// row at a time, and is never in memory as a whole.
    ///
    /// # Errors
    ///
    /// [`NoMemory`] where the allocator refused to let the text grow.
    pub fn push_canonical_row(&self, text: &mut String, number: u32) -> Result<(), NoMemory>
        requires { number < length (canonical_rows self.now) }
        ensures { OnOk result (string_bytes text.new
            ≡ string_bytes text.old ++ slice_index_or (canonical_rows self.now) number []) }
    {
        let (nodes, lines) = (self.nodes(), self.count());
        if number <= nodes {
            self.push_row_of_nodes(text, number)?;
        } else if number - nodes - 1 <= lines {
            self.push_row_of_lines(text, number - nodes - 1)?;
        } else {
            self.push_row_of_bans(text, number - nodes - lines - 2)?;
        }
        Ok(())
    }

    /// Its canonical text: a row for each node, each line and each ban, and a heading before those
    /// of each kind.
    ///
    /// # Errors
    ///
    /// [`NoMemory`] where the allocator refused to let the text grow.
    pub fn canonical(&self, alloc: Global) -> Result<Vec<u8>, NoMemory>
        ensures { IfOk result (λ text. text.items ≡ canonical_text self.now) }
    {
        let mut text = String::new(alloc);
        for number in 0..self.canonical_rows() {
            self.push_canonical_row(&mut text, number)?;
        }
        Ok(text.into_bytes())
    }
}
