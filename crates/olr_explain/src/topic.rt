//! Which faults are asked about.

ghost use Rattle.std.specs.Prelude.{◌≡◌};
ghost use Rattle.olr_explain.specs.Explaining.{allows as allows_word, names};

use crate::table::{Detail, Explanation, Section};

/// Which faults are asked about.
#[derive(Clone, Copy, Debug, PartialEq, Eq)]
pub enum Topic<'a> {
    /// All of them.
    Every,
    /// Those of this name. Where faults of one name differ by a word, and one is given, the one of
    /// that word.
    Named {
        /// The name of the fault.
        name: &'a str,
        /// What follows the name, if anything does.
        word: Option<&'a str>,
    },
}

/// Whether what follows the name of a fault may be this word.
fn allows(detail: Detail, word: &str) -> bool
    ensures { result ≡ allows_word detail word.now }
{
    match detail {
        Detail::Word(only) => only.eq_ignore_ascii_case(word),
        Detail::Nothing | Detail::Values(_) => true,
    }
}

impl<'a> Topic<'a> {
    /// What the words of a command line ask about: the first one is the name of a fault, and
    /// the next one follows it. The text that stands before a fault where it is printed, `olr:`, may
    /// stand before the name. A word may have several, as they stand in a line of text.
    pub fn of(words: &[&'a str]) -> Topic<'a> {
        let mut topic = Topic::Every;
        for text in words {
            for word in text.split_ascii_whitespace() {
                topic = topic.with(word);
            }
        }
        topic
    }

    /// The same topic with another word.
    fn with(self, word: &'a str) -> Topic<'a> {
        match self {
            Topic::Every if word == "olr:" => Topic::Every,
            Topic::Every => Topic::Named {
                name: word,
                word: None,
            },
            Topic::Named { name, word: None } => Topic::Named {
                name,
                word: Some(word),
            },
            named => named,
        }
    }

    /// Whether a fault is asked about.
    pub fn names(&self, fault: &Explanation) -> bool
        ensures { result ≡ names self.now fault.now }
    {
        let Topic::Named { name, word } = self else {
            return true;
        };
        if !fault.name.eq_ignore_ascii_case(name) {
            return false;
        }
        match word {
            Some(word) => allows(fault.detail, word),
            None => true,
        }
    }

    /// Whether a table has a fault that is asked about.
    pub fn is_known(&self, table: &[Section]) -> bool {
        table.iter().any(|section| section.faults.iter().any(|fault| self.names(fault)))
    }
}
