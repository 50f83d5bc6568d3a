//! The lengths of nodes.

ghost use Rattle.std.specs.Prelude.{◌≡◌, ◌≢◌, ◌<◌, ◌≤◌, ◌/◌, ℕ, IfOk, None, Some, length, slice_index};
ghost use Rattle.olr_route.specs.NodeLengths.{length_of};

use olr_base::NoMemory;
use std::alloc::Global;
use std::marker::Model;

/// How many nodes have their lengths on one page: the 16 of the contracts.
const PAGE: usize = 16;

/// A page without lengths.
const EMPTY_PAGE: [u64; PAGE] = [0; PAGE];

/// How many numbers the pages have room for at first: 8 KB.
const ROOM: usize = 1024;

/// A length above 0, in decimetres, for each of some nodes of a map. Contracts see them by
/// `length_of`.
///
/// 16 nodes of neighbouring ranks are a block. Their lengths are on one page, which is made once
/// one of them has a length. So a length is found by two reads, and a block without one takes 2
/// bytes.
#[derive(Drop)]
pub(crate) struct NodeLengths {
    /// Of each block, the number of its page: 0 where it has none of its own.
    pages: Vec<u16>,
    /// The numbers on the pages one after the other, 0 where a node has no length. Page 0 has no
    /// length: it serves all blocks that have no page of their own.
    lengths: Vec<u64>,
}

impl Model for NodeLengths {
    ghost use Rattle.olr_route.specs.NodeLengths.{ArePages, Paged};

    ghost Value = { Paged };

    ghost view = { λ lengths. record {
      pages = lengths.pages.items;
      lengths = lengths.lengths.items;
    } };

    ghost invariant = { λ lengths. ArePages lengths.pages.items lengths.lengths.items };
}

impl NodeLengths {
    /// No node has a length. The first `count` nodes need no longer list of pages.
    #[tactic(auto, using(crate::proofs::Pages::pages_begun, crate::proofs::Pages::none_begun))]
    pub(crate) fn new(alloc: Global, count: u32) -> Result<NodeLengths, NoMemory>
        ensures { IfOk result (λ lengths. (node : ℕ) → length_of lengths node ≡ None) }
    {
        let pages = vec![in alloc; 0; (count as usize).div_ceil(PAGE)]?;
        let mut lengths = Vec::with_capacity(alloc, ROOM)?;
        lengths.extend_from_slice(&EMPTY_PAGE)?;
        Ok(NodeLengths { pages, lengths })
    }

    /// The length of a node, if it has one.
    pub(crate) fn get(&self, node: u32) -> Option<u64>
        ensures { result ≡ length_of self.now node }
    {
        let node = node as usize;
        let page = usize::from(*self.pages.get(node / PAGE)?);
        let length = self.lengths[page * PAGE + node % PAGE];
        if length == 0 {
            return None;
        }
        Some(length)
    }

    /// Gives a node a length: the one to the start of the lines from there.
    pub(crate) fn insert(&mut self, node: u32, at_start: u64) -> Result<(), NoMemory>
        requires { 0 < at_start }

        ensures here { IfOk result (λ _. length_of self.new node ≡ Some at_start) }
        ensures elsewhere { IfOk result (λ _. (other : ℕ) → other ≢ node
            → length_of self.new other ≡ length_of self.old other) }
    {
        let node = node as usize;
        let block = node / PAGE;
        self.lengthen(block + 1)?;
        if self.pages[block] == 0 {
            self.add_page(block)?;
        }
        self.put(node, at_start);
        Ok(())
    }

    /// Gives back the room for further pages.
    pub(crate) fn shrink(&mut self)
        ensures { self.new ≡ self.old }
    {
        self.lengths.shrink_to_fit();
    }

    /// A measure of its memory: how many numbers of 8 bytes it takes.
    pub(crate) fn size(&self) -> usize {
        (self.pages.len() / 4).saturating_add(self.lengths.capacity())
    }

    /// Lengthens the list of pages to the first `count` blocks, if it is shorter. In a search it
    /// never is, but that isn't known here.
    fn lengthen(&mut self, count: usize) -> Result<(), NoMemory>
        ensures enough { IfOk result (λ _. count ≤ length self.new.pages) }
        ensures same { IfOk result (λ _. (node : ℕ)
            → length_of self.new node ≡ length_of self.old node) }
    {
        if count > self.pages.len() {
            self.pages.resize(count, 0)?;
        }
        Ok(())
    }

    /// Makes a page for a block of nodes that has none.
    #[tactic(auto, using(crate::proofs::Pages::same_more))]
    fn add_page(&mut self, block: usize) -> Result<(), NoMemory>
        requires inside { block < length self.old.pages }
        requires none { slice_index self.old.pages block ≡ 0 }

        ensures count { length self.new.pages ≡ length self.old.pages }
        ensures page { IfOk result (λ _. 0 < slice_index self.new.pages block) }
        ensures same { IfOk result (λ _. (node : ℕ)
            → length_of self.new node ≡ length_of self.old node) }
    {
        // 16 bits are enough: a map has 6,250 blocks of nodes at most, and each has one page.
        let page = u16::try_from(self.lengths.len() / PAGE).map_err(|_| NoMemory)?;
        self.lengths.extend_from_slice(&EMPTY_PAGE)?;
        self.pages[block] = page;
        Ok(())
    }

    /// Puts the length of a node on its page, which is there.
    fn put(&mut self, node: usize, at_start: u64)
        requires positive { 0 < at_start }
        requires inside { node / 16 < length self.old.pages }
        requires page { 0 < slice_index self.old.pages (node / 16) }

        ensures here { length_of self.new node ≡ Some at_start }
        ensures elsewhere { (other : ℕ) → other ≢ node
            → length_of self.new other ≡ length_of self.old other }
    {
        let page = usize::from(self.pages[node / PAGE]);
        self.lengths[page * PAGE + node % PAGE] = at_start;
    }
}
