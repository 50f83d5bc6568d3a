//! Tables of penalties that several tests use, and the texts of their keys.

use olr_keys::{Cursor, Page, Table, is_table};
use std::alloc::{AllocError, Global};
use std::test::Fail;

/// The penalties of the candidates of two layers, and of the legs between them.
pub type Penalties<'a> = ([&'a [u16]; 2], &'a [Option<u8>]);

/// Four matchings, two of which have the same total.
pub const TIED: Penalties<'static> = (
    [&[0, 1], &[0, 0, 2]],
    &[Some(3), None, Some(0), Some(0), Some(0), None],
);

/// Four matchings, two of which have the same total with other candidates of the first layer.
pub const SQUARE: Penalties<'static> = ([&[0, 5], &[0, 5]], &[Some(0), Some(0), Some(0), Some(0)]);

/// No candidate in the second layer.
pub const EMPTY: Penalties<'static> = ([&[0, 1], &[]], &[]);

/// The table of these lists.
pub fn table_of(
    alloc: Global,
    layers: &[Vec<u16>],
    legs: &[Vec<Option<u8>>],
) -> Result<Table, Fail> {
    if !is_table(layers, legs) {
        return Err(Fail::new("not a table"));
    }
    Ok(Table::new(alloc, layers, legs)?)
}

/// The table of the penalties of two layers.
pub fn small_table(alloc: Global, penalties: Penalties<'_>) -> Result<Table, Fail> {
    let ([first, second], legs) = penalties;
    let mut layers = Vec::new(alloc);
    for layer in [first, second] {
        layers.push(layer.to_vec(alloc)?)?;
    }
    let legs = vec![in alloc; legs.to_vec(alloc)?]?;
    table_of(alloc, &layers, &legs)
}

/// The legs between two layers of so many candidates, all without a penalty: between all
/// candidates, or between the last ones alone.
fn legs_between(
    alloc: Global,
    count: usize,
    last_alone: bool,
) -> Result<Vec<Option<u8>>, AllocError> {
    let others = if last_alone { None } else { Some(0) };
    let mut legs = vec![in alloc; others; count.saturating_mul(count)]?;
    if let Some(last) = legs.last_mut() {
        *last = Some(0);
    }
    Ok(legs)
}

/// A table of 32 layers with the same penalties, and legs without a penalty. They join all
/// candidates of neighbouring layers; where it is narrow, those of layers 16 and 17, counted from
/// 1, by the last ones alone.
pub fn long_table(alloc: Global, penalties: &[u16], is_narrow: bool) -> Result<Table, Fail> {
    let mut layers = Vec::new(alloc);
    let mut legs = Vec::new(alloc);
    for layer in 1..=32 {
        layers.push(penalties.to_vec(alloc)?)?;
        if layer < 32 {
            let last_alone = is_narrow && layer == 16;
            legs.push(legs_between(alloc, penalties.len(), last_alone)?)?;
        }
    }
    table_of(alloc, &layers, &legs)
}

/// The cursors of the keys of pages, a bar behind each page that is the last, a plus sign behind
/// each other one.
pub fn text_of(alloc: Global, pages: &[Page]) -> Result<String, AllocError> {
    let mut text = String::new(alloc);
    for page in pages {
        for key in &page.keys {
            text.push_str(Cursor::write(key, None).as_str())?;
            text.push(' ')?;
        }
        text.push(if page.more { '+' } else { '|' })?;
    }
    Ok(text)
}

/// A key whose ranks come in runs: the total, and for each run how many layers it has, and the rank
/// in each of them.
pub type Runs<'a> = (u16, &'a [(u8, u8)]);

/// The cursor of a key whose ranks come in runs; empty where there is no run.
pub fn cursor_of(alloc: Global, (total, runs): Runs<'_>) -> Result<String, AllocError> {
    if runs.is_empty() {
        return Ok(String::new(alloc));
    }
    let mut text = format!(in alloc; "{total}:")?;
    let mut dot = "";
    for &(layers, rank) in runs {
        for _layer in 0..layers {
            text.push_str(&format!(in alloc; "{dot}{rank}")?)?;
            dot = ".";
        }
    }
    Ok(text)
}
