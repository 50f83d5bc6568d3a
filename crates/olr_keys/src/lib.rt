//! The matchings of a table of penalties: every key in order, from any cursor, page by page.
//!
//! A matching takes one candidate of each layer, each two neighbours joined by a leg. Its key is
//! the total of all penalties and the ranks of its candidates; keys are ordered by the total and
//! then by the ranks. This crate knows no map. Data goes through these modules in order:
//!
//! - [`table`]: the penalties of candidates and legs; [`limits`]: whether lists are the penalties
//!   of a table; [`matching`]: the total of ranks, if they are a matching.
//! - [`key`]: the key of a matching; [`before`]: which of two keys comes first.
//! - [`finder`]: what finds the next key; [`beginning`]: the beginning of a matching; [`product`]:
//!   the plain finder, which goes through all combinations.
//! - [`bound_table`]: the least remaining total of each candidate; [`bound_finder`]: the finder
//!   that leaves what can't hold the next key by these totals.
//! - [`mod@width`], [`shifted`]: how wide a row of remaining totals is, and how two rows are
//!   joined; [`rows`]: the rows of a table; [`search`]: the next key by these rows; [`totals`]: the
//!   finder that keeps them.
//! - [`page_size`], [`pages`]: what a page is; [`paging`]: a page of any finder; [`chain`]: all
//!   pages.
//! - [`cursor`]: the text that names a matching, of [`ranks`] and numbers in [`decimal`] and
//!   perhaps a [`mark`] of the inputs.
//!
//! Beside them, [`laws`] and [`cursor_laws`] state what holds of all keys, pages and cursors.
#![tactic(auto)]

mod before;
mod beginning;
mod bound_finder;
mod bound_table;
mod chain;
mod cursor;
mod cursor_laws;
mod decimal;
mod finder;
mod key;
mod laws;
mod limits;
mod mark;
mod matching;
mod page_size;
mod pages;
mod paging;
mod product;
mod ranks;
mod rows;
mod search;
mod shifted;
mod table;
mod totals;
mod width;

pub use bound_finder::BoundFinder;
pub use chain::all_pages;
pub use cursor::{BadCursor, Cursor, CursorOfOther, CursorRead, same_inputs};
pub use cursor_laws::{one_cursor, reads_back};
pub use finder::Finder;
pub use key::Key;
pub use laws::{
    keys_are_in_range, no_page_behind_others, one_chain, one_list, one_page, pages_join,
    totals_are_below_width,
};
pub use limits::is_table;
pub use mark::Mark;
pub use page_size::{BadPage, PageSize};
pub use pages::{Page, PageFault};
pub use paging::page;
pub use product::ProductFinder;
pub use rows::Rows;
pub use search::next_key;
pub use shifted::or_shifted;
pub use table::Table;
pub use totals::TotalsFinder;
