// A whole number written into columns of lent memory.
ghost use Rattle.std.specs.Prelude.{◌≡◌, length};
ghost use Rattle.printed_numbers.specs.Printed.{right_justified, with_number};
ghost use Rattle.printed_numbers.specs.Glyphs.{glyph_of};

// Writes a number right-justified into the columns from a position on, spaces before its digits, and nothing else. Of a number with more digits than there are columns the last digits are
// written. Where these columns are not all in the memory, nothing is.
#[tactic(auto, using(crate::proofs::Justified::no_room))]
pub fn put_number(out: &mut [u8], at: usize, width: usize, n: u64)
    ensures { out.new ≡ with_number out.old at width n }
{
    if at > out.len() {
        return;
    }
    if width > out.len() - at {
        return;
    }
    put_digits(&mut out[at..at + width], n);
}

// The last digit is written also where it is 0; before it, where no digit is left, spaces. Where there is no column, nothing is written.
#[tactic(auto, using(crate::proofs::Justified::no_digit))]
fn put_digits(columns: &mut [u8], n: u64)
    ensures { columns.new ≡ right_justified (length columns.old) n }
{
    if columns.is_empty() {
        return;
    }
    let last = columns.len() - 1;
    let mut rest = n / 10;
    columns[last] = b'0' + (n % 10) as u8;
    for j in (0..last).rev() {
        columns[j] = glyph(rest);
        rest /= 10;
    }
}

// The byte at a column before the last one: the last digit of what is left of the number, or a space where nothing is left.
fn glyph(rest: u64) -> u8
    ensures { result ≡ glyph_of rest }
{
    if rest == 0 {
        b' '
    } else {
        b'0' + (rest % 10) as u8
    }
}
