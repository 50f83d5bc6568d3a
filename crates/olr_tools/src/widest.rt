//! A table with as many layers and candidates as a table can have, and with the widest rows: the
//! penalties of the candidates of each layer are up to 360, those of the legs up to 100.

use crate::NO_MEMORY;
use crate::draws::draw;
use anyhow::{Context, Result, ensure};
use olr_keys::{Table, is_table};
use std::alloc::Global;

/// How many layers.
const LAYERS: u8 = 32;

/// How many candidates in each layer.
const CANDIDATES: u16 = 64;

/// The greatest penalty of a candidate.
const MOST: u16 = 360;

/// The greatest penalty of a leg.
const MOST_OF_LEG: u8 = 100;

/// The drawn penalties of the candidates of a layer, sorted. The last one is the greatest.
fn drawn_layer(alloc: Global, drawn: &mut u64) -> Result<Vec<u16>> {
    let mut layer = vec![in alloc; MOST]?;
    for _candidate in 1..CANDIDATES {
        layer.push(draw(drawn, MOST))?;
    }
    layer.sort()?;
    Ok(layer)
}

/// The drawn legs between two layers. They join all candidates; the last has the greatest penalty.
fn drawn_legs(alloc: Global, drawn: &mut u64) -> Result<Vec<Option<u8>>> {
    let mut legs = Vec::new(alloc);
    for _leg in 1..CANDIDATES * CANDIDATES {
        legs.push(Some(draw(drawn, u16::from(MOST_OF_LEG)) as u8))?;
    }
    legs.push(Some(MOST_OF_LEG))?;
    Ok(legs)
}

/// The table. Its last matching has the last candidate of each layer, and the total 14,620.
pub(crate) fn widest_table(alloc: Global) -> Result<Table> {
    let mut drawn = 1;
    let mut layers = Vec::new(alloc);
    for _layer in 0..LAYERS {
        layers.push(drawn_layer(alloc, &mut drawn)?)?;
    }
    let mut legs = Vec::new(alloc);
    for _leg in 1..LAYERS {
        legs.push(drawn_legs(alloc, &mut drawn)?)?;
    }
    ensure!(is_table(&layers, &legs), "not a table");
    Table::new(alloc, &layers, &legs).ok().context(NO_MEMORY)
}
