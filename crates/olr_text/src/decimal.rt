//! Whole numbers as decimal digits.

ghost use Rattle.std.specs.Prelude.{Some};

use itoa::{Buffer, Integer};
use std::fmt::{self, Display, Formatter, Write};

/// A whole number in a text: `write!(text, "leg {}", Decimal(number))` adds its decimal digits,
/// without leading zeros and behind a minus sign where it is below zero. `itoa` makes the digits.
#[derive(Clone, Copy)]
pub struct Decimal<N>(pub N);

impl<N: Integer> Display for Decimal<N> {
    ghost output = { λ number. Some (N.text number.0) };

    fn fmt<W: Write>(&self, f: &mut Formatter<W>) -> fmt::Result {
        f.write_str(Buffer::new().format(self.0))
    }
}
