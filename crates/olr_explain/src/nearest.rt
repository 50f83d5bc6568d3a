//! The name that was meant.

use crate::table::Section;
use olr_base::NoMemory;
use std::alloc::Global;
use strsim::jaro;

/// The least similarity, from 0 to 1, of a name that is suggested.
const SIMILAR: f64 = 0.7;

/// The name of a fault of a table that is most like this word, if one is like it.
///
/// # Errors
///
/// [`NoMemory`] where the allocator refused memory.
pub fn similar_name(
    alloc: Global,
    table: &[Section],
    word: &str,
) -> Result<Option<&'static str>, NoMemory> {
    let mut best = None;
    let mut greatest = SIMILAR;
    for section in table {
        for fault in section.faults {
            let similarity = jaro(alloc, fault.name, word)?;
            if similarity > greatest {
                greatest = similarity;
                best = Some(fault.name);
            }
        }
    }
    Ok(best)
}
