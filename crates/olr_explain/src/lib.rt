//! What each fault means, what usually causes it, and what to do about it.
//!
//! - [`table`]: the faults with these texts, as data; those of [`references`] and of
//!   the files of a [`map`] have modules of their own.
//! - [`topic`]: which of them a user asks about.
//! - [`explaining`]: the text that is printed about them.
//! - [`nearest`]: the name of a fault that is most like a word.
#![tactic(auto)]

mod explaining;
mod map;
mod nearest;
mod references;
mod table;
mod topic;

pub use explaining::explained;
pub use nearest::similar_name;
pub use table::{Detail, Explanation, Section, faults};
pub use topic::Topic;
