//! The messages of an input, one on each line, as the bytes of a source come in.
//!
//! Data goes through these modules in order:
//!
//! - [`messages`]: from the bytes of a source to the lines of an input, each with its front in
//!   memory.
//! - [`content`]: from a line to what it says: a key, and the text of a reference.
//! - [`laws`]: the definitions of a line, of its record and of what it says, in other words.
#![tactic(auto)]

mod content;
mod laws;
mod messages;

pub use content::Content;
pub use laws::{lines, one_message, record_before_cr};
pub use messages::Messages;
