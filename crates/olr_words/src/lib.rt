//! The words of a command line, and those of a record: what they ask for.
//!
//! - [`command`]: the subcommands, as `clap` takes them; [`options`]: their options and the texts of
//!   help; [`place_order`] and [`route_part`]: the orders of places and the parts of a route, by
//!   their names.
//! - [`asked`]: what the words ask for: a request or many records, and the files that they read; or
//!   what a fault means.
//! - [`words`]: what they give to a subcommand, and what it asks for; [`reading`]: the numbers, flags
//!   and names that they give.
//! - [`legs`]: what is asked of the legs of a matching; [`lines`]: of the lines of a map;
//!   [`box_text`]: the text of a box.
//! - [`record_words`]: the words of a record, and the reference behind them.
//! - [`record`]: the request that they ask for; [`record_command`]: the options that they may have, as
//!   `clap` takes them; [`last_question`]: the question that was asked last, which needn't be
//!   understood again.
//! - [`hints`]: what words that aren't understood are rejected with, where it can be said what to
//!   write instead.
//! - [`profile`]: the tolerances that stand for those which the words don't give.
//! - [`rejected`]: why nothing was written, the status for it, and the text that is printed.
#![tactic(auto)]

mod asked;
mod box_text;
mod command;
mod hints;
mod last_question;
mod legs;
mod lines;
mod options;
mod place_order;
mod profile;
mod reading;
mod record;
mod record_command;
mod record_words;
mod rejected;
mod route_part;
mod words;

pub use asked::{
    Asked, AskedLegs, AskedLines, AskedRecords, AskedRequest, Files, Input, Records, asked_of,
};
pub use last_question::LastQuestion;
pub use record::{RecordFault, one_request_of_record, request_of_record, words_of_record};
pub use record_words::RecordWords;
pub use rejected::Rejected;
