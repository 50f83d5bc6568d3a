//! A row of bytes joined with another one, 32 bytes at a time.

ghost use Rattle.std.specs.Prelude.{◌≡◌, length};
ghost use Rattle.olr_keys.specs.Shifted.{IsOrShifted};

use std::simd::prelude::*;

/// How many bytes are joined at a time.
const LANES: usize = 32;

/// Joins a row with another one of the same length that is moved by `k` places: `dst[m]` becomes
/// `dst[m] | src[m - k]` where `m` is at least `k`, and stays as it is below.
pub fn or_shifted(dst: &mut [u8], src: &[u8], k: usize)
    requires { length dst.old ≡ length src.now }
    ensures { IsOrShifted dst.old src.now k dst.new }
{
    if k < dst.len() {
        let count = src.len() - k;
        or_into(&mut dst[k..], &src[..count]);
    }
}

/// Joins a row with another one of the same length, byte by byte.
fn or_into(dst: &mut [u8], src: &[u8])
    requires { length dst.old ≡ length src.now }
    ensures { IsOrShifted dst.old src.now 0 dst.new }
{
    let (whole, _) = src.as_chunks::<LANES>();
    let mut at = 0;
    for lanes in whole {
        let joined = u8x32::from_slice(&dst[at..]) | u8x32::from_array(*lanes);
        joined.copy_to_slice(&mut dst[at..]);
        at += LANES;
    }
    for m in at..src.len() {
        dst[m] |= src[m];
    }
}
