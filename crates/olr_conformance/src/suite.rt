//! The format of the files of cases.

use serde::Deserialize;
use std::collections::BTreeMap;

/// A file of cases, and what they share.
#[derive(Drop, Deserialize)]
#[serde(deny_unknown_fields)]
pub struct Suite {
    /// The words of each case that has none of its own.
    #[serde(default)]
    pub words: Vec<String>,
    /// The files of each case, by their names.
    #[serde(default)]
    pub files: BTreeMap<String, String>,
    /// Whether the lines of an output may go on, behind a blank, where those of the case end: its
    /// cases don't show which columns there are.
    #[serde(default)]
    pub more_columns: bool,
    /// The cases.
    pub case: Vec<Case>,
}

/// A run of the program.
#[derive(Drop, Deserialize)]
#[serde(deny_unknown_fields)]
pub struct Case {
    /// What the case shows.
    pub name: String,
    /// The words behind the program's name.
    pub words: Option<Vec<String>>,
    /// Files that the suite lacks, or that stand in place of those of the same name.
    #[serde(default)]
    pub files: BTreeMap<String, String>,
    /// What there is on standard input.
    #[serde(default)]
    pub input: String,
    /// The status that the program ends with.
    #[serde(default)]
    pub status: u8,
    /// The standard output. Left out, none is wanted but at status 0, where any is right.
    pub output: Option<String>,
    /// The line of the fault, with the program's name and without the line's end.
    pub fault: Option<String>,
}

impl Suite {
    /// The words of a case.
    pub fn words_of<'a>(&'a self, case: &'a Case) -> &'a [String] {
        match &case.words {
            Some(words) => words.as_slice(),
            None => self.words.as_slice(),
        }
    }

    /// The text of a file, if a case has one of this name.
    pub fn file_of<'a>(&'a self, case: &'a Case, name: &str) -> Option<&'a str> {
        match case.files.get(name) {
            Some(text) => Some(text.as_str()),
            None => self.files.get(name).map(|text| text.as_str()),
        }
    }
}
