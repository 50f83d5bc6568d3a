//! Powers of two with fractions, in whole numbers, by three tables.

ghost use Rattle.std.specs.Prelude.{◌≡◌, ◌<◌, ◌≤◌, ◌^◌, slice_index_or};
ghost use Rattle.olr_confidence.specs.Power.{EntriesAreFloors, power};

/// 2 to the power of `31 - i / 16`, rounded down, for each `i` from 0 to 15.
const SIXTEENTHS: [u64; 16] = [
    2_147_483_648,
    2_056_437_386,
    1_969_251_187,
    1_885_761_398,
    1_805_811_301,
    1_729_250_826,
    1_655_936_264,
    1_585_729_999,
    1_518_500_249,
    1_454_120_821,
    1_392_470_868,
    1_333_434_672,
    1_276_901_416,
    1_222_764_985,
    1_170_923_761,
    1_121_280_435,
];

/// 2 to the power of `31 - i / 256`, rounded down, likewise.
const FINER: [u64; 16] = [
    2_147_483_648,
    2_141_676_972,
    2_135_885_998,
    2_130_110_682,
    2_124_350_982,
    2_118_606_856,
    2_112_878_262,
    2_107_165_158,
    2_101_467_501,
    2_095_785_251,
    2_090_118_365,
    2_084_466_802,
    2_078_830_521,
    2_073_209_480,
    2_067_603_638,
    2_062_012_953,
];

/// 2 to the power of `31 - i / 4096`, rounded down, likewise.
const FINEST: [u64; 16] = [
    2_147_483_648,
    2_147_120_269,
    2_146_756_953,
    2_146_393_698,
    2_146_030_504,
    2_145_667_372,
    2_145_304_302,
    2_144_941_292,
    2_144_578_345,
    2_144_215_458,
    2_143_852_633,
    2_143_489_870,
    2_143_127_167,
    2_142_764_527,
    2_142_401_947,
    2_142_039_429,
];

/// The entry of `SIXTEENTHS` of this number.
fn sixteenth(number: u64) -> u64
    requires { number < 16 }
    ensures entry { result ≡ slice_index_or SIXTEENTHS number 0 }
    ensures at_most { result ≤ 2 ^ 31 }
{
    SIXTEENTHS[number as usize]
}

/// The entry of `FINER` of this number.
fn finer(number: u64) -> u64
    requires { number < 16 }
    ensures entry { result ≡ slice_index_or FINER number 0 }
    ensures at_most { result ≤ 2 ^ 31 }
{
    FINER[number as usize]
}

/// The entry of `FINEST` of this number.
fn finest(number: u64) -> u64
    requires { number < 16 }
    ensures entry { result ≡ slice_index_or FINEST number 0 }
    ensures at_most { result ≤ 2 ^ 31 }
{
    FINEST[number as usize]
}

/// 2 to the power of `31 - lost / 2^24`, in whole numbers: the exponent is rounded to the nearest
/// 4096th, and the product of three powers of the tables is rounded down behind each, and
/// so is the half of it that is taken for each whole step. From 0 to 2^31.
pub(crate) fn power(lost: u64) -> u64
    requires { lost ≤ 2 ^ 63 }
    ensures power { result ≡ power lost }
    ensures at_most { result ≤ 2 ^ 31 }
{
    let steps = (lost + 2_048) / 4_096;
    let coarse = sixteenth(steps / 256 % 16) * finer(steps / 16 % 16) / (1 << 31);
    let whole = coarse * finest(steps % 16) / (1 << 31);
    let halvings = steps / 4_096;
    if halvings < 32 { whole >> halvings } else { 0 }
}

/// Each entry of the tables is a power of two, rounded down.
pub fn entries_are_floors()
    ensures { EntriesAreFloors }
{}
