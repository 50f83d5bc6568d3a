//! The lines of a map by their bounding boxes, so that those near a place are found without a look
//! at each.

ghost use Rattle.std.specs.Prelude.{◌≡◌, [], ◌∷◌, ◌<◌, ◌≤◌, drop, length, take, IfOk, MatchOption};
ghost use Rattle.std.specs.Iterator.{YieldsFirst, item_count};
ghost use Rattle.std.specs.List.{All};
ghost use Rattle.olr_index.specs.Window.{IsBoundingBox, IsWindow};
ghost use Rattle.olr_index.specs.ByBoundingBox.{meets_in_latitude, meets_in_longitude, meets, ranks_in, bounding_boxes_of, AreInOrder, Covers, AreBlocks, NoneMeets, between};

use olr_base::{Degrees, NoMemory};
use std::alloc::Global;
use std::marker::Model;

/// How many lines a block has.
const BLOCK: usize = 64;

/// How many blocks a group has.
const GROUP: usize = 64;

/// A cell of the index is 2 to this power microdegrees high and wide: some 900 metres high.
const CELL_BITS: u32 = 13;

/// The places between two latitudes and between two longitudes, all in microdegrees and included.
/// The bounding box of a line is the least one that has all its points.
#[derive(Clone, Copy)]
pub struct BoundingBox {
    /// The least latitude, in microdegrees.
    pub south: i32,
    /// The greatest latitude, in microdegrees.
    pub north: i32,
    /// The least longitude, in microdegrees.
    pub west: i32,
    /// The greatest longitude, in microdegrees.
    pub east: i32,
}

/// A line of a map: its rank and its bounding box.
#[derive(Clone, Copy)]
pub struct PlacedLine {
    /// The rank.
    pub rank: u32,
    /// The bounding box.
    pub bounding_box: BoundingBox,
}

/// The lines of a map in blocks. Contracts see the bounding boxes of the lines, by the line's rank.
///
/// The lines are sorted by the cell in which their south-western corner lies, row by row, so few
/// blocks meet a small window, and few neighbouring groups of blocks.
#[derive(Drop)]
pub struct ByBoundingBox {
    lines: Vec<PlacedLine>,
    /// Of each block, a bounding box within which those of its lines lie.
    blocks: Vec<BoundingBox>,
    /// Of each group, a bounding box within which those of its lines lie.
    groups: Vec<BoundingBox>,
}

impl Model for ByBoundingBox {
    ghost use Rattle.std.specs.Prelude.{List};
    ghost use Rattle.olr_index.specs.declared.window.BoundingBox.{BoundingBox};

    ghost Value = { List BoundingBox };

    ghost use Rattle.olr_index.specs.ByBoundingBox.{bounding_boxes_by_rank, AreByRank, AreBlocks};

    ghost view = { λ by. bounding_boxes_by_rank by.lines.items };

    ghost invariant = { λ by. AreByRank (bounding_boxes_by_rank by.lines.items) by.lines.items
        × AreBlocks 64 by.lines.items by.blocks.items
        × AreBlocks 4096 by.lines.items by.groups.items };
}

/// The lines that meet a window. Contracts see the ranks of those that are left.
#[derive(Drop)]
pub struct Window<'a> {
    bounds: BoundingBox,
    /// The lines that are left of the block at hand.
    at_hand: &'a [PlacedLine],
    /// The lines of the blocks after it.
    next_lines: &'a [PlacedLine],
    /// Of each of those blocks, a bounding box within which those of its lines lie.
    next_blocks: &'a [BoundingBox],
}

impl<'a> Model for Window<'a> {
    ghost use Rattle.std.specs.Prelude.{List, ℕ, ◌++◌};

    ghost Value = { List ℕ };

    ghost use Rattle.olr_index.specs.ByBoundingBox.{ranks_in, AreBlocks};

    ghost view = { λ window. ranks_in window.bounds window.at_hand.now
        ++ ranks_in window.bounds window.next_lines.now };

    ghost invariant = { λ window. AreBlocks 64 window.next_lines.now window.next_blocks.now };
}

impl PlacedLine {
    /// The cell in which its south-western corner lies. Nothing rests on it but how long a look
    /// takes.
    fn cell(&self) -> u32 {
        let row = (self.bounding_box.south >> CELL_BITS).cast_unsigned();
        let column = (self.bounding_box.west >> CELL_BITS).cast_unsigned();
        row << 16 | column & 0xffff
    }
}

impl BoundingBox {
    /// Whether some of its latitudes are those of a window.
    fn meets_in_latitude(&self, window: &BoundingBox) -> bool
        ensures { result ≡ meets_in_latitude window.now self.now }
    {
        self.south <= window.north && window.south <= self.north
    }

    /// Whether some of its longitudes are those of a window.
    fn meets_in_longitude(&self, window: &BoundingBox) -> bool
        ensures { result ≡ meets_in_longitude window.now self.now }
    {
        self.west <= window.east && window.west <= self.east
    }

    /// Whether it meets a window.
    fn meets(&self, window: &BoundingBox) -> bool
        ensures { result ≡ meets window.now self.now }
    {
        self.meets_in_latitude(window) && self.meets_in_longitude(window)
    }

    /// The bounding box of both.
    fn joined(&self, other: &BoundingBox) -> BoundingBox
        ensures first { Covers result self.now }
        ensures second { Covers result other.now }
    {
        BoundingBox {
            south: self.south.min(other.south),
            north: self.north.max(other.north),
            west: self.west.min(other.west),
            east: self.east.max(other.east),
        }
    }
}

/// The bounding box of a line's points, of which there is at least one.
pub fn bounding_box_of(points: &[Degrees]) -> BoundingBox
    requires { 0 < length points.now }
    ensures { IsBoundingBox points.now result }
{
    let first = points[0];
    let mut bounding_box = BoundingBox {
        south: first.lat,
        north: first.lat,
        west: first.lon,
        east: first.lon,
    };
    for point in points {
        bounding_box.south = bounding_box.south.min(point.lat);
        bounding_box.north = bounding_box.north.max(point.lat);
        bounding_box.west = bounding_box.west.min(point.lon);
        bounding_box.east = bounding_box.east.max(point.lon);
    }
    bounding_box
}

/// A bounding box within which those of all the lines lie.
#[tactic(auto, using(std::proofs::lemmas::List::take_all))]
fn cover(lines: &[PlacedLine]) -> BoundingBox
    requires { 0 < length lines.now }
    ensures { All (λ line. Covers result line.bounding_box) lines.now }
{
    let mut bounding_box = lines[0].bounding_box;
    for line in lines {
        bounding_box = bounding_box.joined(&line.bounding_box);
    }
    bounding_box
}

/// Of each block of so many lines, a bounding box within which those of its lines lie.
fn blocks_of(alloc: Global, lines: &[PlacedLine], size: usize) -> Result<Vec<BoundingBox>, NoMemory>
    requires { 1 ≤ size }
    ensures { IfOk result (λ blocks. AreBlocks size lines.now blocks.items) }
{
    let count = lines.len().div_ceil(size);
    let mut blocks = Vec::with_capacity(alloc, count)?;
    for block in 0..count {
        let start = size * block;
        let end = lines.len().min(start.saturating_add(size));
        blocks.push(cover(&lines[start..end]))?;
    }
    Ok(blocks)
}

impl ByBoundingBox {
    /// These lines, which have the ranks from 0 on, in this order.
    ///
    /// # Errors
    ///
    /// [`NoMemory`] where the allocator refused memory.
    pub fn new(alloc: Global, lines: Vec<PlacedLine>) -> Result<ByBoundingBox, NoMemory>
        requires { AreInOrder lines.items }
        ensures { IfOk result (λ by_bounding_box. by_bounding_box ≡ bounding_boxes_of lines.items) }
    {
        let mut lines = lines;
        lines.sort_unstable_by_key(|line| line.cell());
        let blocks = blocks_of(alloc, &lines, BLOCK)?;
        let groups = blocks_of(alloc, &lines, BLOCK * GROUP)?;
        Ok(ByBoundingBox {
            lines,
            blocks,
            groups,
        })
    }

    /// A window that no line meets.
    pub fn nothing(&self) -> Window<'_>
        ensures { result ≡ [] }
    {
        Window {
            bounds: BoundingBox {
                south: 0,
                north: 0,
                west: 0,
                east: 0,
            },
            at_hand: &self.lines[..0],
            next_lines: &self.lines[..0],
            next_blocks: &self.blocks[..0],
        }
    }

    /// The lines whose bounding box meets a window; each once, in an order of its own.
    #[tactic(auto, using(crate::proofs::Blocks::blocks_between))]
    pub fn window(&self, bounds: &BoundingBox) -> Window<'_>
        ensures { IsWindow self.now bounds.now result }
    {
        let first = first_that_meets(&self.groups, bounds);
        let end = end_of_those_that_meet(&self.groups, bounds);
        Window {
            bounds: *bounds,
            at_hand: &self.lines[..0],
            next_lines: between(&self.lines, BLOCK * GROUP, first, end),
            next_blocks: between(&self.blocks, GROUP, first, end),
        }
    }
}

/// How many bounding boxes stand before the first one that meets a window: all, where none does.
#[tactic(auto, using(std::proofs::lemmas::List::take_all))]
fn first_that_meets(bounding_boxes: &[BoundingBox], window: &BoundingBox) -> usize
    ensures at_most { result ≤ length bounding_boxes.now }
    ensures none { NoneMeets window.now (take result bounding_boxes.now) }
{
    for (index, bounding_box) in bounding_boxes.iter().enumerate() {
        if bounding_box.meets(window) {
            return index;
        }
    }
    bounding_boxes.len()
}

/// The place behind the last bounding box that meets a window: 0 where none does.
fn end_of_those_that_meet(bounding_boxes: &[BoundingBox], window: &BoundingBox) -> usize
    ensures at_most { result ≤ length bounding_boxes.now }
    ensures none { NoneMeets window.now (drop result bounding_boxes.now) }
{
    let mut end = bounding_boxes.len();
    while end > 0 {
        if bounding_boxes[end - 1].meets(window) {
            return end;
        }
        end -= 1;
    }
    0
}

/// The items of some parts of a list, each part `size` items long: from part `first` on, and before
/// part `end`.
fn between<T>(items: &[T], size: usize, first: usize, end: usize) -> &[T]
    ensures { result.now ≡ between size first end items.now }
{
    let (items, _) = items.split_at(items.len().min(size.saturating_mul(end)));
    let (_, items) = items.split_at(items.len().min(size.saturating_mul(first)));
    items
}

/// The rank of the first of the lines that meets the window, with the lines after it.
fn first_in<'a>(lines: &'a [PlacedLine], window: &BoundingBox) -> Option<(u32, &'a [PlacedLine])>
    ensures { MatchOption result
        (ranks_in window.now lines.now ≡ [])
        (λ found. ranks_in window.now lines.now ≡ found.0 ∷ ranks_in window.now found.1.now) }
{
    let mut left = lines;
    while let Some((line, rest)) = left.split_first() {
        if line.bounding_box.meets(window) {
            return Some((line.rank, rest));
        }
        left = rest;
    }
    None
}

impl<'a> Iterator for Window<'a> {
    type Item = u32;

    ghost next_gives = { YieldsFirst (λ rest. rest) };

    ghost remaining = { item_count (λ rest. rest) };

    #[tactic(auto, using(crate::proofs::Blocks::over))]
    fn next(&mut self) -> Option<u32> {
        loop {
            if let Some((rank, rest)) = first_in(self.at_hand, &self.bounds) {
                self.at_hand = rest;
                return Some(rank);
            }
            let (block, next_blocks) = self.next_blocks.split_first()?;
            let (first, next_lines) = self.next_lines.split_at(self.next_lines.len().min(BLOCK));
            self.at_hand = if block.meets(&self.bounds) {
                first
            } else {
                &first[..0]
            };
            self.next_lines = next_lines;
            self.next_blocks = next_blocks;
        }
    }
}
