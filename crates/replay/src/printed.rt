// Job 16: a double as it is printed.
use crate::bench::Bench;
use crate::numbers::Ended;
use decimals::decimal_column;

// How many bytes a number of the answer has.
const BYTES: usize = 7;

// The double by its bits; the answer is the 21 bytes that are printed for it, in three numbers.
pub fn answer(b: &mut Bench) -> Result<(), Ended> {
    let x = b.reader.next_double()?;
    let column = decimal_column(x);
    b.writer.append(number_of(&column[..BYTES]))?;
    b.writer.append(number_of(&column[BYTES..2 * BYTES]))?;
    b.writer.append(number_of(&column[2 * BYTES..]))
}

// The number of the bytes, the first of them the highest.
fn number_of(bytes: &[u8]) -> u64 {
    let mut n = 0;
    for b in bytes {
        n = n << 8 | u64::from(*b);
    }
    n
}
