//! The text of why a reference has no matching.

ghost use Rattle.std.specs.Prelude.{◌≡◌, IfOk, Some, string_bytes};
ghost use Rattle.olr_text.specs.Texts.{unnumbered};
ghost use Rattle.olr_why.specs.Reasons.{why_value};
ghost use Rattle.olr_why.specs.Text.{better_text, change_text, leg_rows, miss_text, near_row};
ghost use Rattle.olr_why.specs.Text.{pair_row, point_rows, remedy_row, verdict_row, why_text};

use crate::leg::LegReason;
use crate::on_map::{OnMap, shown_line};
use crate::pair::{Better, PairLength};
use crate::point::PointReason;
use crate::remedy::{Change, Remedy};
use crate::verdict::Verdict;
use crate::why::Why;
use olr_base::NoMemory;
use olr_candidates::NearLine;
use olr_keys::Cursor;
use olr_road::Map;
use olr_text::{Decimal, NumberOr, ToText, push_texts, text_if};
use std::alloc::Global;
use std::fmt::{self, Display, Formatter, Write};

/// The row of a line near a point.
impl ToText<OnMap<'_>> for NearLine {
    ghost text = { λ on. unnumbered (near_row on.map.now) };

    fn push(&self, on: &OnMap<'_>, _: usize, out: &mut String) -> Result<(), NoMemory> {
        let (class, form, id) = shown_line(on.map, self.line);
        let (id, class, form) = (Decimal(id), Decimal(class), Decimal(form));
        let (distance, at) = (Decimal(self.distance), Decimal(self.at));
        let sector = NumberOr(self.sector, "none");
        write!(
            out,
            "near line {id} distance {distance} at {at} sector {sector}"
        )?;
        write!(out, " class {class} form {form}")?;
        match self.penalty {
            Some(penalty) => write!(out, " penalty {}\n", Decimal(penalty))?,
            None => {
                let radius = text_if(self.failed.radius, " radius");
                let bearing = text_if(self.failed.bearing, " bearing");
                let class = text_if(self.failed.class, " class");
                let end = text_if(self.failed.end, " end");
                write!(out, " not{radius}{bearing}{class}{end}\n")?;
            }
        }
        Ok(())
    }
}

/// The rows of a point.
impl ToText<OnMap<'_>> for PointReason {
    ghost text = { λ on. point_rows on.map.now };

    fn push(&self, on: &OnMap<'_>, number: usize, out: &mut String) -> Result<(), NoMemory> {
        let (number, candidates) = (Decimal(number), NumberOr(self.candidates, "many"));
        write!(out, "point {number} candidates {candidates}\n")?;
        push_texts(&self.nearest, on, out)?;
        Ok(())
    }
}

/// How far a length lies below the least one that a leg admits, or above the greatest one.
#[derive(Clone, Copy)]
struct Miss {
    short: Option<u64>,
    long: Option<u64>,
}

impl Display for Miss {
    ghost output = { λ miss. Some (miss_text miss.short miss.long) };

    fn fmt<W: Write>(&self, f: &mut Formatter<W>) -> fmt::Result {
        match (self.short, self.long) {
            (Some(short), _) => write!(f, " short {}", Decimal(short)),
            (None, Some(long)) => write!(f, " long {}", Decimal(long)),
            (None, None) => Ok(()),
        }
    }
}

/// What another class limit gives for a pair, if it gives anything.
#[derive(Clone, Copy)]
struct Gain(Option<Better>);

impl Display for Gain {
    ghost output = { λ gain. Some (better_text gain.0) };

    fn fmt<W: Write>(&self, f: &mut Formatter<W>) -> fmt::Result {
        match self.0 {
            Some(Better { class, length }) => {
                write!(f, " class {} length {}", Decimal(class), Decimal(length))
            }
            None => Ok(()),
        }
    }
}

/// The row of a pair of a leg.
impl ToText<LegReason> for PairLength {
    ghost text = { λ leg. unnumbered (pair_row leg.from leg.to) };

    fn push(&self, leg: &LegReason, _: usize, out: &mut String) -> Result<(), NoMemory> {
        let (first, second) = (Decimal(self.first), Decimal(self.second));
        let length = NumberOr(self.length, "none");
        let (short, long) = (self.short(leg.from), self.long(leg.to));
        let (miss, gain) = (Miss { short, long }, Gain(self.better));
        write!(out, "pair {first} {second} length {length}{miss}{gain}\n")?;
        Ok(())
    }
}

/// The rows of a leg.
impl<On> ToText<On> for LegReason {
    ghost text = { λ _. leg_rows };

    fn push(&self, _: &On, number: usize, out: &mut String) -> Result<(), NoMemory> {
        let (number, class) = (Decimal(number), Decimal(self.class));
        let (from, to) = (Decimal(self.from), Decimal(self.to));
        let (admits, of) = (Decimal(self.admits), Decimal(self.of));
        write!(out, "leg {number} class {class} from {from} to {to}")?;
        write!(out, " admits {admits} of {of}\n")?;
        push_texts(&self.pairs, self, out)?;
        Ok(())
    }
}

/// The row of the verdict.
impl Display for Verdict {
    ghost output = { λ verdict. Some (verdict_row verdict) };

    fn fmt<W: Write>(&self, f: &mut Formatter<W>) -> fmt::Result {
        let word = self.word();
        match self.number() {
            Some(number) => write!(f, "verdict {word} {}\n", Decimal(number)),
            None => write!(f, "verdict {word}\n"),
        }
    }
}

/// A change, as it is written.
impl Display for Change {
    ghost output = { λ change. Some (change_text change) };

    fn fmt<W: Write>(&self, f: &mut Formatter<W>) -> fmt::Result {
        match *self {
            Change::Set(name, value) => write!(f, "--{} {}", name.text(), Decimal(value)),
            Change::WithoutBans => f.write_str("without-bans"),
        }
    }
}

/// The row of a change that would help.
impl<On> ToText<On> for Remedy {
    ghost text = { λ _. unnumbered remedy_row };

    fn push(&self, _: &On, _: usize, out: &mut String) -> Result<(), NoMemory> {
        let change = self.change;
        match &self.matching {
            Some(key) => write!(out, "try {change} matching {}\n", Cursor::write(key, None))?,
            None => write!(out, "try {change} end\n")?,
        }
        Ok(())
    }
}

/// The text of why a reference has no matching: for each point a row with the number of its
/// candidates, and one for each line near it, with its distance in centimetres, the conditions that
/// it fails or its penalty; for each leg a row with its class limit, the lengths that it admits and
/// how many pairs of candidates it admits, and where it admits none one for each of the first
/// pairs; the verdict; a row for each change that would help; and `end`. Lines are shown by their
/// ids, positions and lengths in decimetres.
///
/// # Errors
///
/// [`NoMemory`] where the allocator refused memory.
pub fn why_text(alloc: Global, map: &Map, why: &Why) -> Result<String, NoMemory>
    ensures { IfOk result (λ text. string_bytes text ≡ why_text map.now (why_value why.now)) }
{
    let on = OnMap { map, spots: false };
    let mut text = String::new(alloc);
    push_texts(&why.points, &on, &mut text)?;
    push_texts(&why.legs, &on, &mut text)?;
    write!(text, "{}", why.verdict)?;
    push_texts(&why.remedies, &on, &mut text)?;
    text.push_str("end\n")?;
    Ok(text)
}
