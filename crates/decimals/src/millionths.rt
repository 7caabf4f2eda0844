// The size of a double in millionths, a whole number: the exact value rounded half to even. By its bit pattern: no operation on doubles is made.
ghost use Rattle.std.specs.Prelude.{◌≡◌, ◌+◌, ◌*◌, ◌/◌, ◌%◌, ◌^◌, ◌<◌, ◌≤◌};
ghost use Rattle.std.specs.Float.Ieee.Nearest.{closest};
ghost use Rattle.decimals.specs.Sizes.{size_at};

// The exponent's field of 2^44, which is more than 20 characters hold, and of 2^-21, below which every double is less than half a millionth.
const TOO_LARGE: u64 = 1067;

const SMALL: u64 = 1002;

// The significands up to here, times 2^-73, are less than half a millionth. None is just half.
const LAST_BELOW_HALF: u64 = 4722366482869645;

// A number of millionths that 20 characters do not hold.
const TOO_MANY: u64 = 10_000_000_000_000_000_000;

// 15,625 times a significand, which may have 67 binary digits: its eighths and what they leave.
#[derive(Clone, Copy)]
struct Parts {
    eighths: u64,
    rest: u64,
}

// From a pattern without its sign. What is too large for 20 characters, infinite or no number is TOO_MANY.
pub fn millionths(bits: u64) -> u64
    requires { bits < 2 ^ 63 }
    ensures { result ≡ size_at (bits / 2 ^ 52) (bits % 2 ^ 52) }
{
    let field = bits / 0x0010_0000_0000_0000;
    if field >= TOO_LARGE {
        return TOO_MANY;
    }
    if field < SMALL {
        return 0;
    }
    let m = 0x0010_0000_0000_0000 + bits % 0x0010_0000_0000_0000;
    if field == SMALL {
        return if LAST_BELOW_HALF < m { 1 } else { 0 };
    }
    let p = product(m);
    nearest(p.eighths, p.rest, 1 << (1066 - field))
}

// A million is 15,625 times 2^6, so that 15,625 m is m millionths but for a power of two.
fn product(m: u64) -> Parts
    requires { m < 2 ^ 53 }
    ensures { (8 * result.eighths + result.rest ≡ 15625 * m) × (result.rest < 8) × (result.eighths + 1 < 2 ^ 64) }
{
    let low = m % 8 * 15625;
    Parts {
        eighths: m / 8 * 15625 + low / 8,
        rest: low % 8,
    }
}

// (8 eighths + rest) / (8 unit) to the nearest whole number, a tie to the even one.
#[tactic(auto, using(crate::proofs::Rounded::less_than_half, crate::proofs::Rounded::more_than_half, crate::proofs::Rounded::just_more, crate::proofs::Rounded::half))]
fn nearest(eighths: u64, rest: u64, unit: u64) -> u64
    requires { (0 < unit) × (unit ≤ 2 ^ 63) × (rest < 8) × (eighths + 1 < 2 ^ 64) }
    ensures { result ≡ closest (8 * eighths + rest) (8 * unit) }
{
    let quotient = eighths / unit;
    let twice = 2 * (eighths % unit) + rest / 4;
    if twice < unit {
        return quotient;
    }
    if unit < twice {
        return quotient + 1;
    }
    if rest % 4 > 0 {
        return quotient + 1;
    }
    quotient + quotient % 2
}
