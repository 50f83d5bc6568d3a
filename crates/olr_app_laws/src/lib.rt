//! Laws on what runs of the program print together, with no code: each law is the contract of an
//! empty function. No crate stands on this one.
//!
//! - [`headline`]: the pages of matchings that follow each other show all matchings, each once.
//! - [`laws`]: a request has one answer at most; the answer to one of many requests is that of a run,
//!   but for its mark.
//! - [`record_laws`]: so is the answer to a record, be it a reference or a request; the text of a
//!   record has one answer at most, or one fault; `batch` answers as `answer` does.
//! - [`fingerprint_laws`]: different inputs of a request have different texts to digest.
#![tactic(auto)]

mod fingerprint_laws;
mod headline;
mod laws;
mod record_laws;

pub use fingerprint_laws::{one_request_by_text, reference_is_one_line};
pub use headline::{all_pages_follow, cursors_go_on, outputs_agree, outputs_join};
pub use laws::{answers_of_many, one_answer};
pub use record_laws::{answers_are_of_runs, batch_is_answer, one_reply, requests_are_of_runs};
