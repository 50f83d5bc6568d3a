//! The numbers by which places were asked for, beside those of a confidence.

ghost use Rattle.std.specs.Prelude.{◌≡◌, ◌++◌, IfOk, OnOk};
ghost use Rattle.olr_confidence.specs.Asked.{asked_with, if_other, name_text, others_of};

use crate::confidence::AskedNumbers;
use olr_candidates::{Tolerance, Tolerances};
use std::alloc::{AllocError, Global};

/// The numbers of tolerances, and the distance in decimetres by which matchings are told apart.
pub fn asked_with(tolerances: &Tolerances, apart: u32) -> AskedNumbers
    ensures { result ≡ asked_with tolerances.now apart }
{
    AskedNumbers {
        radius: u64::from(tolerances.radius),
        bearing: u64::from(tolerances.bearing),
        class: u64::from(tolerances.class),
        lowest: u64::from(tolerances.lowest),
        percent: u64::from(tolerances.percent),
        slack: u64::from(tolerances.slack),
        apart: u64::from(apart),
    }
}

/// The name of a number by which places were asked for.
#[derive(Clone, Copy, Debug, PartialEq, Eq)]
pub enum AskedName {
    /// A tolerance.
    Tolerance(Tolerance),
    /// The distance by which matchings are told apart.
    Apart,
}

impl AskedName {
    /// Its text, as in the option that gives its value.
    pub fn text(self) -> &'static str
        ensures { result.now ≡ name_text self }
    {
        match self {
            AskedName::Tolerance(name) => name.text(),
            AskedName::Apart => "apart",
        }
    }
}

/// Adds the name of a number, if it is another one.
fn push_if_other(
    names: &mut Vec<AskedName>,
    name: AskedName,
    one: u64,
    other: u64,
) -> Result<(), AllocError>
    ensures { OnOk result (names.new.items ≡ names.old.items ++ if_other name one other) }
{
    if one != other {
        names.push(name)?;
    }
    Ok(())
}

/// The names of those numbers that are others than those of a confidence: of the tolerances in their
/// order, then the distance by which matchings are told apart.
///
/// # Errors
///
/// [`AllocError`] where the allocator refused memory.
pub fn others_of(
    alloc: Global,
    asked: &AskedNumbers,
    made: &AskedNumbers,
) -> Result<Vec<AskedName>, AllocError>
    ensures { IfOk result (λ names. names.items ≡ others_of asked.now made.now) }
{
    let mut names = Vec::new(alloc);
    push_if_other(
        &mut names,
        AskedName::Tolerance(Tolerance::Radius),
        asked.radius,
        made.radius,
    )?;
    push_if_other(
        &mut names,
        AskedName::Tolerance(Tolerance::Bearing),
        asked.bearing,
        made.bearing,
    )?;
    push_if_other(
        &mut names,
        AskedName::Tolerance(Tolerance::Class),
        asked.class,
        made.class,
    )?;
    push_if_other(
        &mut names,
        AskedName::Tolerance(Tolerance::Lowest),
        asked.lowest,
        made.lowest,
    )?;
    push_if_other(
        &mut names,
        AskedName::Tolerance(Tolerance::Percent),
        asked.percent,
        made.percent,
    )?;
    push_if_other(
        &mut names,
        AskedName::Tolerance(Tolerance::Slack),
        asked.slack,
        made.slack,
    )?;
    push_if_other(&mut names, AskedName::Apart, asked.apart, made.apart)?;
    Ok(names)
}
