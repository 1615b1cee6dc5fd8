//! Powers of five.

ghost use Rattle.std.specs.Prelude.{◌≡◌, ◌≤◌, ◌^◌, ◌*◌, ◌/◌, IsTrue};
ghost use Rattle.fractions.specs.Fives.{IsPowerOfFive};

/// For each length in bits the power of five whose exponent is three sevenths of it, rounded down.
/// Each power of five below 2^64 stands at its own length.
const POWERS: [u64; 65] = [
    1,
    1,
    1,
    5,
    5,
    25,
    25,
    125,
    125,
    125,
    625,
    625,
    3_125,
    3_125,
    15_625,
    15_625,
    15_625,
    78_125,
    78_125,
    390_625,
    390_625,
    1_953_125,
    1_953_125,
    1_953_125,
    9_765_625,
    9_765_625,
    48_828_125,
    48_828_125,
    244_140_625,
    244_140_625,
    244_140_625,
    1_220_703_125,
    1_220_703_125,
    6_103_515_625,
    6_103_515_625,
    30_517_578_125,
    30_517_578_125,
    30_517_578_125,
    152_587_890_625,
    152_587_890_625,
    762_939_453_125,
    762_939_453_125,
    3_814_697_265_625,
    3_814_697_265_625,
    3_814_697_265_625,
    19_073_486_328_125,
    19_073_486_328_125,
    95_367_431_640_625,
    95_367_431_640_625,
    476_837_158_203_125,
    476_837_158_203_125,
    476_837_158_203_125,
    2_384_185_791_015_625,
    2_384_185_791_015_625,
    11_920_928_955_078_125,
    11_920_928_955_078_125,
    59_604_644_775_390_625,
    59_604_644_775_390_625,
    59_604_644_775_390_625,
    298_023_223_876_953_125,
    298_023_223_876_953_125,
    1_490_116_119_384_765_625,
    1_490_116_119_384_765_625,
    7_450_580_596_923_828_125,
    7_450_580_596_923_828_125,
];

/// The power of five for a length in bits.
fn power_of_length(bits: usize) -> u64
    requires { bits ≤ 64 }
    ensures { result ≡ 5 ^ (bits * 3 / 7) }
{
    POWERS[bits]
}

/// Whether it is a power of five.
pub(crate) fn is_power_of_five(number: u64) -> bool
    ensures { IsTrue result → IsPowerOfFive number }
{
    let bits = (64 - number.leading_zeros()) as usize;
    power_of_length(bits) == number
}
