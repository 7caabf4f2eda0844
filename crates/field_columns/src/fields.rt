// A field in the columns of a line, as a number in decimal.
ghost use Rattle.std.specs.Prelude.{◌≡◌, take, drop};
ghost use Rattle.field_columns.specs.Fields.{field_of};

use crate::scan::{FIELD_WIDTH, scanned};

// The number digits / 10^places.
#[derive(Clone, Copy)]
pub struct Decimal {
    pub digits: u64,
    pub places: u64,
}

// The number in the 12 columns from a position of the line on, or None if the line ends before the last of them, and if they do not have the form of a field.
#[tactic(auto, using(crate::proofs::Ways::too_short))]
pub fn field_at(line: &[u8], at: usize) -> Option<Decimal>
    ensures { result ≡ field_of (take 12 (drop at line.now)) }
{
    if at > line.len() {
        return None;
    }
    if line.len() - at < FIELD_WIDTH {
        return None;
    }
    scanned(&line[at..at + FIELD_WIDTH])
}
