// The fields of a line, by their position: field 0 stands right behind the letter.
ghost use Rattle.std.specs.Prelude.{◌+◌, ◌*◌, ◌≤◌, ◌≡◌};
ghost use Rattle.sheet_lines.specs.Fields.{whole, real, is_whole, is_real, formed};
ghost use Rattle.sheet_lines.specs.Groups.{wholes_in, reals_in};

use field_values::{real_at, whole_at};

// A letter stands before the fields.
const LETTER_COLUMNS: usize = 1;

const FIELD_COLUMNS: usize = 12;

const LINE_FEED: u8 = 10;

// The first three fields of an S, C or B line. Named here and in `Reals`, since each is another field of a part.
#[derive(Clone, Copy)]
pub struct Wholes {
    pub first: u64,
    pub second: u64,
    pub third: u64,
}

// Four fields that may have a point.
#[derive(Clone, Copy)]
pub struct Reals {
    pub first: f64,
    pub second: f64,
    pub third: f64,
    pub fourth: f64,
}

// Which fields of a line are whole numbers and which may have a point: from which field on, and how many.
#[derive(Clone, Copy)]
pub struct Form {
    pub first_whole: u8,
    pub wholes: u8,
    pub first_real: u8,
    pub reals: u8,
}

// The whole number in a field, or 0 where there is none.
pub fn whole(line: &[u8], field: u8) -> u64
    ensures { result ≡ whole line.now field }
{
    whole_at(line, column(field)).unwrap_or(0)
}

// The number in a field, or 0 where there is none.
pub fn real(line: &[u8], field: u8) -> f64
    ensures { result ≡ real line.now field }
{
    real_at(line, column(field)).unwrap_or(0.0)
}

// The whole numbers in the first three fields.
pub fn three_wholes(line: &[u8]) -> Wholes
    ensures { result ≡ wholes_in line.now }
{
    Wholes {
        first: whole(line, 0),
        second: whole(line, 1),
        third: whole(line, 2),
    }
}

// The numbers in four fields from `field` on.
pub fn four_reals(line: &[u8], field: u8) -> Reals
    requires { field ≤ 7 }
    ensures { result ≡ reals_in line.now field }
{
    Reals {
        first: real(line, field),
        second: real(line, field + 1),
        third: real(line, field + 2),
        fourth: real(line, field + 3),
    }
}

fn is_whole(line: &[u8], field: u8) -> bool
    ensures { result ≡ is_whole line.now field }
{
    whole_at(line, column(field)).is_some()
}

fn is_real(line: &[u8], field: u8) -> bool
    ensures { result ≡ is_real line.now field }
{
    real_at(line, column(field)).is_some()
}

// The first column of a field.
fn column(field: u8) -> usize
    ensures { result ≡ 1 + 12 * field }
{
    LETTER_COLUMNS + FIELD_COLUMNS * usize::from(field)
}

// Whether a line has the fields of a form, a line feed behind them, and nothing else.
#[tactic(auto, using(crate::proofs::Right::whole_wrong, crate::proofs::Right::real_wrong), unfolding(crate::specs::Fields::formed))]
pub fn is_formed(line: &[u8], form: Form) -> bool
    requires { (form.first_whole + form.wholes ≤ 11) × (form.first_real + form.reals ≤ 11) }
    ensures { result ≡ formed line.now form }
{
    let end = LETTER_COLUMNS + FIELD_COLUMNS * usize::from(form.wholes + form.reals);
    if line.len() != end + 1 {
        return false;
    }
    if line[end] != LINE_FEED {
        return false;
    }
    for k in 0..form.wholes {
        if !is_whole(line, form.first_whole + k) {
            return false;
        }
    }
    for j in 0..form.reals {
        if !is_real(line, form.first_real + j) {
            return false;
        }
    }
    true
}
