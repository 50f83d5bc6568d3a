//! The digest of a fingerprinted text.

ghost use Rattle.std.specs.Prelude.{IfOk};
ghost use Rattle.olr_fingerprint.specs.Fingerprint.{FingerprintIsMark, IsFingerprint};

use crate::fingerprint_lines::{take_map, take_request};
use olr_base::NoMemory;
use olr_candidates::Tolerances;
use olr_keys::Mark;
use olr_road::Map;
use sha2::{Digest, Sha256};
use std::alloc::Global;

/// The fingerprint of a request's inputs: the map, the text of its reference and the tolerances. It
/// is the SHA-256 digest of a text that names them. Blanks at the two ends of the reference's text
/// change nothing, and nor does the order of the records in the map's files.
///
/// # Errors
///
/// [`NoMemory`] where the allocator refused memory for a line of that text.
#[tactic(auto, unfolding(crate::specs::Fingerprint::fingerprinted_text))]
pub fn fingerprint(
    alloc: Global,
    map: &Map,
    text: &str,
    tolerances: &Tolerances,
) -> Result<Mark, NoMemory>
    ensures { IfOk result (IsFingerprint text.now tolerances.now map.now) }
{
    let mut hasher = Sha256::new();
    take_request(alloc, &mut hasher, text, tolerances)?;
    take_map(alloc, &mut hasher, map)?;
    Ok(Mark(hasher.finalize()))
}

/// A fingerprint has 32 bytes, so the text of a cursor can carry it.
#[tactic(auto, using(crate::proofs::DigestBytes::fingerprint_is_mark))]
pub fn fingerprint_is_mark()
    ensures { FingerprintIsMark }
{}
