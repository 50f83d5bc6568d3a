//! The text of a reference.

ghost use Rattle.std.specs.Prelude.{◌≡◌, ◌++◌, string_bytes, IfOk, OnOk};
ghost use Rattle.olr_binary.specs.Show.{next_text, point_text, line_text, point_along_text, reference_text};

use crate::point::{Next, Point};
use crate::reference::Reference;
use olr_base::{Degrees, NoMemory};
use olr_text::{Decimal, NumberOr, ToText, push_texts};
use std::alloc::Global;
use std::fmt::Write;

/// Adds the attributes of the path to the next point, where there is one.
fn push_next(text: &mut String, next: Option<Next>) -> Result<(), NoMemory>
    ensures { OnOk result (string_bytes text.new ≡ string_bytes text.old ++ next_text next) }
{
    if let Some(Next { lowest, interval }) = next {
        let (lowest, interval) = (Decimal(lowest), Decimal(interval));
        write!(text, " lowest {lowest} interval {interval}")?;
    }
    Ok(())
}

/// The line of a point, with its number.
impl<On> ToText<On> for Point {
    ghost text = { λ _. point_text };

    fn push(&self, _: &On, number: usize, out: &mut String) -> Result<(), NoMemory> {
        let Degrees { lon, lat } = self.at;
        let (number, lon, lat) = (Decimal(number), Decimal(lon), Decimal(lat));
        let (class, form, sector) = (
            Decimal(self.class),
            Decimal(self.form),
            Decimal(self.sector),
        );
        write!(
            out,
            "{number} {lon} {lat} class {class} form {form} sector {sector}"
        )?;
        push_next(out, self.next)?;
        out.push_str("\n")?;
        Ok(())
    }
}

/// Adds the text of a line.
fn push_line(
    text: &mut String,
    points: &[Point],
    positive: Option<u8>,
    negative: Option<u8>,
) -> Result<(), NoMemory>
    ensures { OnOk result (string_bytes text.new
        ≡ string_bytes text.old ++ line_text points.now positive negative) }
{
    write!(text, "line {} points\n", Decimal(points.len()))?;
    push_texts(points, &(), text)?;
    let (positive, negative) = (NumberOr(positive, "none"), NumberOr(negative, "none"));
    write!(text, "positive {positive}\nnegative {negative}\n")?;
    Ok(())
}

/// Adds the text of a point along a line.
fn push_point_along(
    text: &mut String,
    points: &[Point],
    orientation: u8,
    side: u8,
    positive: Option<u8>,
) -> Result<(), NoMemory>
    ensures { OnOk result (string_bytes text.new
        ≡ string_bytes text.old ++ point_along_text points.now orientation side positive) }
{
    write!(text, "point-along-line {} points\n", Decimal(points.len()))?;
    push_texts(points, &(), text)?;
    let (orientation, side) = (Decimal(orientation), Decimal(side));
    write!(text, "orientation {orientation}\nside {side}\n")?;
    write!(text, "positive {}\n", NumberOr(positive, "none"))?;
    Ok(())
}

/// Prints a reference: its kind and number of points, a line for each point, and a line for each
/// further field. Coordinates are in microdegrees, offsets in shares of 1/256.
///
/// # Errors
///
/// [`NoMemory`] where the allocator refused to let the text grow.
pub fn show_text(alloc: Global, reference: &Reference) -> Result<String, NoMemory>
    ensures { IfOk result (λ text. string_bytes text ≡ reference_text reference.now) }
{
    let mut text = String::new(alloc);
    match reference {
        Reference::Line {
            points,
            positive,
            negative,
        } => push_line(&mut text, points, *positive, *negative)?,
        Reference::PointAlong {
            points,
            orientation,
            side,
            positive,
        } => push_point_along(&mut text, points, *orientation, *side, *positive)?,
    }
    Ok(text)
}
