//! The lines of a fingerprinted text, taken into a digest. Only one row of the map's text is in
//! memory at a time.

ghost use Rattle.std.specs.Prelude.{OnOk};
ghost use Rattle.olr_road.specs.Canonical.{canonical_text};
ghost use Rattle.olr_fingerprint.specs.Fingerprint.{request_text};
ghost use Rattle.olr_fingerprint.specs.Digest.{Extends};

use olr_base::NoMemory;
use olr_binary::trim;
use olr_candidates::Tolerances;
use olr_road::Map;
use sha2::{Digest, Sha256};
use std::alloc::Global;
use std::fmt::Write;

/// Takes in the lines before those of the map, from the text of the reference and the tolerances.
pub(crate) fn take_request(
    alloc: Global,
    hasher: &mut Sha256,
    text: &str,
    tolerances: &Tolerances,
) -> Result<(), NoMemory>
    ensures { OnOk result (Extends hasher.old hasher.new (request_text text.now tolerances.now)) }
{
    let mut line = String::new(alloc);
    write!(line, "{tolerances}\n")?;
    hasher.update("olr 2\n");
    hasher.update(trim(text.as_bytes()));
    hasher.update("\n");
    hasher.update(line.as_bytes());
    Ok(())
}

/// Takes in the canonical text of a map, a row at a time.
pub(crate) fn take_map(alloc: Global, hasher: &mut Sha256, map: &Map) -> Result<(), NoMemory>
    ensures { OnOk result (Extends hasher.old hasher.new (canonical_text map.now)) }
{
    let mut row = String::new(alloc);
    for number in 0..map.canonical_rows() {
        row.clear();
        map.push_canonical_row(&mut row, number)?;
        hasher.update(row.as_bytes());
    }
    Ok(())
}
