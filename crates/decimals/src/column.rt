// A double in 21 columns.
ghost use Rattle.std.specs.Prelude.{◌≡◌, false, ◌+◌, ◌-◌, ◌^◌, ◌<◌, length};
ghost use Rattle.printed_numbers.specs.Printed.{digits_of};
ghost use Rattle.decimals.specs.Decimals.{decimal_column, fitted, six_places};

use crate::millionths::millionths;
use float64::to_bits;
use printed_numbers::put_number;

// The columns, those before the point, and the point's own.
const COLUMNS: usize = 21;

const BEFORE_POINT: usize = 14;

// The weight of the sign in a pattern.
const SIGN: u64 = 0x8000_0000_0000_0000;

// A whole number in millionths.
const ONE: u64 = 1_000_000;

// From here on a number in millionths needs more than 20 characters: 13 digits and a minus sign before the point, or 14 digits.
const LONG_BELOW_0: u64 = 1_000_000_000_000_000_000;

const LONG: u64 = 10_000_000_000_000_000_000;

// A double with six places, right-justified, rounded half to even; stars where it needs more than 20 characters or is NaN or infinite.
pub fn decimal_column(x: f64) -> [u8; 21]
    ensures { result ≡ decimal_column x }
{
    let bits = to_bits(x);
    column_of(bits >= SIGN, millionths(bits % SIGN))
}

// A number of millionths, with the sign of the double that it is of.
#[tactic(auto, using(crate::proofs::Texts::too_many, crate::proofs::Texts::too_many_below_0, crate::proofs::Texts::same_zero, crate::proofs::Texts::signed_written))]
fn column_of(negative: bool, q: u64) -> [u8; 21]
    ensures { result ≡ fitted (six_places negative q) }
{
    let stars = [b'*'; COLUMNS];
    if q >= LONG {
        return stars;
    }
    if !negative {
        return unsigned_column(q);
    }
    if q == 0 {
        return unsigned_column(q);
    }
    if q >= LONG_BELOW_0 {
        return stars;
    }
    let mut text = unsigned_column(q);
    let place = sign_place(q / ONE);
    text[place] = b'-';
    text
}

// Without a sign: the whole part in 14 columns, the point, and six digits. These are printed behind a 1, in whose place the point is put.
#[tactic(auto, using(crate::proofs::Texts::unsigned_written))]
fn unsigned_column(q: u64) -> [u8; 21]
    requires { q < 10 ^ 19 }
    ensures { result ≡ fitted (six_places false q) }
{
    let mut text = [b' '; COLUMNS];
    put_number(&mut text, 0, BEFORE_POINT, q / ONE);
    put_number(&mut text, BEFORE_POINT, 7, ONE + q % ONE);
    text[BEFORE_POINT] = b'.';
    text
}

// The column before the first digit of a whole part, which has one digit or more.
fn sign_place(whole: u64) -> usize
    requires { whole < 10 ^ 12 }
    ensures { result + 1 + length (digits_of whole) ≡ 14 }
{
    let last = BEFORE_POINT - 2;
    match whole {
        0 => last,
        _ => last - whole.ilog10() as usize,
    }
}
