//! What is written as text.

ghost use Rattle.std.specs.Prelude.{◌≡◌, ◌++◌, [], ℕ, if◌then◌else◌, List, OnOk, Some, string_bytes};
ghost use Rattle.olr_text.specs.Texts.{text_or, texts_from};

use crate::decimal::Decimal;
use itoa::Integer;
use olr_base::NoMemory;
use std::fmt::{self, Display, Formatter, Write};

/// An item of a list that is written as text with an `On` at hand. Where lines of a map are written
/// it is the map, which has their ids.
pub trait ToText<On> {
    // The text of the item of this number, from 1.
    ghost text: { On → ℕ → Self → List ℕ };

    /// Adds the text of the item of this number, from 1.
    fn push(&self, on: &On, number: usize, out: &mut String) -> Result<(), NoMemory>
        ensures { OnOk result (string_bytes out.new
            ≡ string_bytes out.old ++ text on.now number self.now) };
}

/// Adds the texts of the items of a list, one after another.
///
/// # Errors
///
/// [`NoMemory`] where the allocator refused memory.
pub fn push_texts<On, T: ToText<On>>(list: &[T], on: &On, out: &mut String) -> Result<(), NoMemory>
    ensures { OnOk result (string_bytes out.new
        ≡ string_bytes out.old ++ texts_from (T.text on.now) 1 list.now) }
{
    for (index, item) in list.iter().enumerate() {
        item.push(on, index + 1, out)?;
    }
    Ok(())
}

/// A text where it applies, and nothing where not.
pub fn text_if(applies: bool, text: &'static str) -> &'static str
    ensures { result.now ≡ (if applies then text.now else []) }
{
    if applies { text } else { "" }
}

/// A number, or a word where there is none.
#[derive(Clone, Copy)]
pub struct NumberOr<'a, N>(pub Option<N>, pub &'a str);

impl<N: Integer> Display for NumberOr<'_, N> {
    ghost output = { λ shown. Some (text_or N.text shown.1.now shown.0) };

    fn fmt<W: Write>(&self, f: &mut Formatter<W>) -> fmt::Result {
        match self.0 {
            Some(number) => write!(f, "{}", Decimal(number)),
            None => f.write_str(self.1),
        }
    }
}
