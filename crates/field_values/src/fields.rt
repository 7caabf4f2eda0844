// A field in the columns of a line, as a whole number and as a double.
ghost use Rattle.std.specs.Prelude.{◌≡◌, take, drop};
ghost use Rattle.field_columns.specs.Fields.{whole_of, real_of};

use crate::value::nearest_double;
use field_columns::field_at;

// The number in the 12 columns of a whole-number field from a position of the line on, or None if they do not have the form of a field, and if there is a point in it.
#[tactic(auto, unfolding(field_columns::specs::Fields::whole_of))]
pub fn whole_at(line: &[u8], at: usize) -> Option<u64>
    ensures { result ≡ whole_of (take 12 (drop at line.now)) }
{
    let number = field_at(line, at)?;
    if number.places == 0 {
        return Some(number.digits);
    }
    None
}

// The number in these columns as a double, the nearest one, or None if they do not have the form of a field.
#[tactic(auto, using(crate::proofs::Ways::few_digits, crate::proofs::Ways::few_places), unfolding(field_columns::specs::Fields::real_of))]
pub fn real_at(line: &[u8], at: usize) -> Option<f64>
    ensures { result ≡ real_of (take 12 (drop at line.now)) }
{
    let number = field_at(line, at)?;
    Some(nearest_double(number.digits, number.places))
}
