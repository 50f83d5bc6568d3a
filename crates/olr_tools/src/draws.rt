//! Numbers that are drawn, the same ones in each run.

ghost use Rattle.std.specs.Prelude.{◌≤◌};

/// The next number of a drawn row.
fn next(drawn: u64) -> u64 {
    drawn
        .wrapping_mul(6_364_136_223_846_793_005)
        .wrapping_add(1_442_695_040_888_963_407)
}

/// Goes on to the next number of a drawn row, and draws a number up to `most` from its high bits.
pub(crate) fn draw(drawn: &mut u64, most: u16) -> u16
    ensures { result ≤ most }
{
    *drawn = next(*drawn);
    ((*drawn >> 33) % (u64::from(most) + 1)) as u16
}
