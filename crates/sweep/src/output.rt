// The lines of the listing on standard output. Once its reader has gone, none can be written.
ghost use Rattle.std.specs.Prelude.{◌<◌};

use case_reasons::ROW_LENGTH;
use listing_text::{end_text, refusal_text, row_text};
use std::io;

// Room for 64 rows, more than a cable has cases.
const ROWS: usize = 64;

pub const MEMORY: usize = ROWS * ROW_LENGTH;

// The row at a position of the memory.
fn row_at(memory: &[u64; MEMORY], row: usize) -> [u64; ROW_LENGTH]
    requires { row < ROWS }
{
    let at = ROW_LENGTH * row;
    let mut numbers = [0; ROW_LENGTH];
    numbers.copy_from_slice(&memory[at..at + ROW_LENGTH]);
    numbers
}

// The first rows of the memory, a line each.
pub fn print_rows(rt: &impl Print, memory: &[u64; MEMORY], rows: u64) -> io::Result<()> {
    for row in 0..ROWS.min(rows as usize) {
        let text = row_text(row_at(memory, row));
        rt.write_all(&text)?;
    }
    Ok(())
}

// The line of totals.
pub fn print_end(rt: &impl Print, cases: u64, steps: u64) -> io::Result<()> {
    let text = end_text(cases, steps);
    rt.write_all(&text)
}

// The line of a refusal.
pub fn print_refusal(rt: &impl Print, number: u64, line: u64) -> io::Result<()> {
    let text = refusal_text(number, line);
    rt.write_all(&text)
}
