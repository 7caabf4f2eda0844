// Job 8: an operation on doubles.
use crate::bench::Bench;
use crate::numbers::Ended;
use float64::from_bits;

// The operation, then two doubles by their bits; the answer is the result by its bits.
pub fn answer(b: &mut Bench) -> Result<(), Ended> {
    let n = b.reader.numbers::<3>()?;
    let result = result_of(n[0], from_bits(n[1]), from_bits(n[2]))?;
    b.writer.append(result)
}

// The operations that take one double ignore y. The reading ends at an operation that there is not.
fn result_of(operation: u64, x: f64, y: f64) -> Result<f64, Ended> {
    match operation {
        0 => Ok(square_root::sqrt(x)),
        1 => Ok(elementary::exp(x)),
        2 => Ok(elementary::sin(x)),
        3 => Ok(elementary::cos(x)),
        4 => Ok(float64::max(x, y)),
        5 => Ok(float64::min(x, y)),
        _ => Err(Ended),
    }
}
