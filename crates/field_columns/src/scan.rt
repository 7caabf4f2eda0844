// The columns of a field, read one by one.
ghost use Rattle.std.specs.Prelude.{◌≡◌, length, Some};
ghost use Rattle.field_columns.specs.Fields.{field_of};
ghost use Rattle.field_columns.specs.Scanning.{digit_of, scan_of, answer_of, Roomy};

use crate::fields::Decimal;

// The columns of a field.
pub const FIELD_WIDTH: usize = 12;

// The digits after a point.
const MOST_PLACES: u64 = 6;

// How far a field is read: in its spaces, in its digits so far, or in the digits after its point and how many of them.
#[derive(Clone, Copy)]
pub enum Scan {
    Spaces,
    Digits(u64),
    Fraction(u64, u64),
}

// The number in the 12 columns of a field, or None at the first column that cannot stand there.
pub fn scanned(columns: &[u8]) -> Option<Decimal>
    requires { length columns.now ≡ 12 }
    ensures { result ≡ field_of columns.now }
{
    let mut s = Scan::Spaces;
    for b in columns {
        s = scan_step(s, *b)?;
    }
    answer(s)
}

// One column more, or None if it cannot follow.
fn scan_step(s: Scan, b: u8) -> Option<Scan>
    requires { Roomy s }
    ensures { result ≡ scan_of (Some s) b }
{
    match s {
        Scan::Spaces => {
            if b == b' ' {
                return Some(Scan::Spaces);
            }
            Some(Scan::Digits(digit(b)?))
        }
        Scan::Digits(n) => {
            if b == b'.' {
                return Some(Scan::Fraction(n, 0));
            }
            Some(Scan::Digits(n * 10 + digit(b)?))
        }
        Scan::Fraction(n, p) => Some(Scan::Fraction(n * 10 + digit(b)?, p + 1)),
    }
}

// The number that a digit stands for, or None for another byte.
fn digit(b: u8) -> Option<u64>
    ensures { result ≡ digit_of b }
{
    match b {
        b'0'..=b'9' => Some((b - b'0') as u64),
        _ => None,
    }
}

// The number of a field, once its last column is read, or None if it has no digit, none after its point, or more than six there. A scan has a field only
// at its end, so that this is no conversion.
fn answer(s: Scan) -> Option<Decimal>
    ensures { result ≡ answer_of (Some s) }
{
    match s {
        Scan::Spaces => None,
        Scan::Digits(n) => Some(Decimal {
            digits: n,
            places: 0,
        }),
        Scan::Fraction(n, p) => match p {
            1..=MOST_PLACES => Some(Decimal {
                digits: n,
                places: p,
            }),
            _ => None,
        },
    }
}
