//! What a text is made of: its numbers, its lists, and JSON.
//!
//! - [`decimal`]: a whole number as its decimal digits.
//! - [`to_json`]: what is written as JSON, and its line.
//! - [`to_text`]: a list as text, and a number that may be missing.
#![tactic(auto)]

mod decimal;
mod to_json;
mod to_text;

pub use decimal::Decimal;
pub use to_json::{
    MaybeMember, Member, ToJson, ToMembers, count_if, send_counted, to_json_line, to_json_text,
};
pub use to_text::{NumberOr, ToText, push_texts, text_if};
