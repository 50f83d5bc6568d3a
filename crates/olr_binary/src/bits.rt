//! Bit fields of a byte.

ghost use Rattle.std.specs.Prelude.{◌≡◌, ◌<◌};
ghost use Rattle.olr_binary.specs.Bits.{bits};

/// `count` bits of a byte, of which bit `low` is the least significant, as a number.
pub(crate) fn bits(byte: u8, low: u32, count: u32) -> u8
    requires low { low < 8 }
    requires count { count < 8 }
    ensures { result ≡ bits byte low count }
{
    byte / (1 << low) % (1 << count)
}
