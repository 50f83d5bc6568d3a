//! Many references, or many requests, on one map: each record of an input is answered by one line of
//! JSON, as it comes.
//!
//! The map is read once, and then a record goes through these modules in order:
//!
//! - [`reply`]: what is answered to its text, which is a reference or a whole request.
//! - [`line`]: the line of a record; [`record`]: what is written for it.
//! - [`answering`]: [`answer_records`], the loop over the records, which come from `olr_messages`,
//!   on a map that was read before.
//! - [`batch`]: [`run_batch`], all of this from the files of a map to the output.
//!
//! Beside them, [`laws`] says what the line of a record is as JSON. That the answer to a reference is
//! what [`run`](olr_app::run) prints for it alone, but for the mark in a cursor, is a law of
//! `olr_app_laws`.
#![tactic(auto)]

mod answering;
mod batch;
mod laws;
mod line;
mod record;
mod reply;

pub use answering::answer_records;
pub use batch::run_batch;
pub use laws::json_answers_are_members;
