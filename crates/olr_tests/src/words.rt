//! The words of records that ask one question after the other.

use olr_words::{LastQuestion, request_of_record, words_of_record};
use std::alloc::Global;

/// Records in order, and whether the words of each are those of the question that was kept last.
const RECORDS: &[(&str, bool)] = &[
    ("match --page 3 -- CwAAAAAAABtoAQBkAAAbGA==", false),
    ("match --page 3 -- *", true),
    ("match --page 3 *", false),
    ("match --page 4 -- *", false),
    ("match --page 3 -- *", false),
    ("match --page 0 -- *", false),
    ("match --page 0 -- *", false),
    ("match --after 0:1.1 -- *", false),
    ("match --after 0:1.1 -- *", false),
    ("show -- *", false),
    ("show -- *", false),
    ("match --page 3 -- ", true),
    ("match --page 3 --detail -- *", false),
    ("match --page 3 --detail -- *", true),
    ("match --page 3 -- *", false),
    ("match --format geojson -- *", false),
    ("match --format geojson -- *", true),
];

/// Whether the words of a text are those of the question that was kept last. Where they aren't, the
/// text is asked.
fn is_asked_again(alloc: Global, last: &mut LastQuestion, text: &str) -> bool {
    if last.asked_again(text).is_some() {
        return true;
    }
    if let Ok(words) = words_of_record(alloc, text) {
        let _ = request_of_record(alloc, last, &words);
    }
    false
}

/// The words of a question are known again, with a reference of their own; others are understood.
#[test]
fn knows_a_question_again(rt: HostRuntime) {
    let mut last = LastQuestion::none();
    for &(text, again) in RECORDS {
        assert!(rt;
            is_asked_again(rt.alloc(), &mut last, text) == again,
            "{text}"
        );
    }
}
