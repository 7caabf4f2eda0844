// A double and its bit pattern.
ghost use Rattle.std.specs.Prelude.{◌≡◌};
ghost use Rattle.float64.specs.Pattern.{bits_of, double_of};

// f64::to_bits, with one pattern for every NaN
pub fn to_bits(x: f64) -> u64
    ensures { result ≡ bits_of x }
{
    if x != x {
        0x7ff8_0000_0000_0000
    } else {
        f64::to_bits(x)
    }
}

// f64::from_bits, with one NaN for every NaN pattern
pub fn from_bits(bits: u64) -> f64
    ensures { result ≡ double_of bits }
{
    if bits % 0x8000_0000_0000_0000 > 0x7ff0_0000_0000_0000 {
        0.0 / 0.0
    } else {
        f64::from_bits(bits)
    }
}
