//! The question that was asked last.

ghost use Rattle.std.specs.Prelude.{IfSome, Ok, ⊤};
ghost use Rattle.olr_words.specs.LastQuestion.{AskOfEach};
ghost use Rattle.olr_request.specs.declared.request.Query.TheVariants.{Reference};
ghost use Rattle.olr_words.specs.Record.{IsQueryOf};

use olr_request::{Format, Pages, Question, Request};
use std::alloc::Global;
use std::marker::Model;

/// Words before a reference, the question that they ask of it, and the format of the answer.
#[derive(Drop)]
struct KeptQuestion {
    words: String,
    question: Question,
    format: Format,
}

/// The question that was asked last, so that the words for it needn't be understood again. It changes
/// no answer: a text with the same words asks the same of its own reference.
#[derive(Drop)]
pub struct LastQuestion {
    kept: Option<KeptQuestion>,
}

impl Model for LastQuestion {
    ghost Value = { ⊤ };

    ghost view = { λ _. tt };

    ghost invariant = { λ last. IfSome last.kept (λ kept.
        AskOfEach kept.words.bytes.items kept.question kept.format) };
}

impl LastQuestion {
    /// That nothing was asked yet.
    pub fn none() -> LastQuestion {
        LastQuestion { kept: None }
    }

    /// What a text asks for whose words are those of the last question.
    pub fn asked_again<'a>(&self, text: &'a str) -> Option<Request<'a>>
        ensures { IfSome result (λ request. IsQueryOf text.now (Ok (Reference request))) }
    {
        let Some(kept) = &self.kept else {
            return None;
        };
        let (words, reference) = text.split_once(" -- ")?;
        if words == kept.words.as_str() {
            let question = &kept.question;
            return Some(question.request(reference, Pages::One(None), kept.format));
        }
        None
    }

    /// Keeps the question that words ask of the reference behind them, and the format in which they
    /// ask it. Where the allocator refuses memory, the one before stays.
    pub(crate) fn keep(&mut self, alloc: Global, words: &str, question: Question, format: Format)
        requires { AskOfEach words.now question format }
    {
        let Ok(words) = String::from_str(alloc, words) else {
            return;
        };
        self.kept = Some(KeptQuestion {
            words,
            question,
            format,
        });
    }
}
