// The text of a line: a letter, numbers in columns, and a line feed.
ghost use Rattle.std.specs.Prelude.{◌≡◌, ◌+◌, ◌*◌, ◌<◌, ◌≤◌, length};
ghost use Rattle.listing_text.specs.Lines.{row_text, end_text, refusal_text};
ghost use Rattle.listing_text.specs.Puts.{two_put, put_all, put_values};

use decimals::decimal_column;
use float64::from_bits;
use printed_numbers::put_number;

// The columns of a number of a case or a rule, of a count or a line number, and of a double.
const NUMBER_WIDTH: usize = 4;

const COUNT_WIDTH: usize = 12;

const VALUE_WIDTH: usize = 21;

// Where the doubles of a row begin: behind the letter and four numbers.
const VALUES_AT: usize = 17;

// A row: R, its first four numbers in columns of 4, and the doubles whose bits are the other four as decimals in columns of 21.
#[tactic(auto, using(crate::proofs::Written::row_written))]
pub fn row_text(row: [u64; 8]) -> [u8; 102]
    ensures { result ≡ row_text row }
{
    let mut text = [b'\n'; 102];
    text[0] = b'R';
    put_columns(&mut text, 1, NUMBER_WIDTH, &row[..4]);
    put_values(&mut text, VALUES_AT, &row[4..]);
    text
}

// The end, as short as a refusal by what writes both: E, and how many cases and steps there were, in columns of 12.
#[tactic(auto, using(crate::proofs::Written::end_written))]
pub fn end_text(cases: u64, steps: u64) -> [u8; 26]
    ensures { result ≡ end_text cases steps }
{
    let mut text = [b'\n'; 26];
    put_two(&mut text, b'E', COUNT_WIDTH, cases, steps);
    text
}

// A refusal: X, its number in 4 columns, and the line of the sheet in 12.
#[tactic(auto, using(crate::proofs::Written::refusal_written))]
pub fn refusal_text(number: u64, line: u64) -> [u8; 18]
    ensures { result ≡ refusal_text number line }
{
    let mut text = [b'\n'; 18];
    put_two(&mut text, b'X', NUMBER_WIDTH, number, line);
    text
}

// Writes a letter, a byte as any other, a number in `width` columns behind it, and another in 12 columns behind that.
fn put_two(out: &mut [u8], letter: u8, width: usize, first: u64, second: u64)
    requires out_nonzero { 0 < length out.old }
    requires width_bound { width ≤ 12 }
    ensures { out.new ≡ two_put out.old letter width first second }
{
    out[0] = letter;
    put_number(out, 1, width, first);
    put_number(out, 1 + width, COUNT_WIDTH, second);
}

// Writes numbers side by side, from a position on.
fn put_columns(out: &mut [u8], at: usize, width: usize, numbers: &[u64])
    requires at_bound { at ≤ 102 }
    requires width_bound { width ≤ 21 }
    requires numbers_len_bound { length numbers.now ≤ 8 }
    ensures { out.new ≡ put_all out.old at width numbers.now }
{
    let mut place = at;
    for n in numbers {
        put_number(out, place, width, *n);
        place += width;
    }
}

// Writes doubles, given by their bits, side by side as decimals, from a position on.
fn put_values(out: &mut [u8], at: usize, values: &[u64])
    requires { (at ≤ 17) × (length values.now ≤ 4) × (at + 21 * length values.now ≤ length out.old) }
    ensures { out.new ≡ put_values out.old at values.now }
{
    let mut place = at;
    for bits in values {
        let column = decimal_column(from_bits(*bits));
        out[place..place + VALUE_WIDTH].copy_from_slice(&column);
        place += VALUE_WIDTH;
    }
}
