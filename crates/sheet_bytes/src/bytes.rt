// A sheet, a byte at a time: where its reading stands.
ghost use Rattle.std.specs.Prelude.{◌≡◌};
ghost use mathlib.Core.List.{foldl};
ghost use Rattle.sheet_bytes.specs.Bytes.{start_of, stopped_in, byte_taken, ended_of};

use sheet_lines::line_of;
use taken_lines::{Sheet, empty_sheet, has_stopped, with_line};

// No line is longer than an S line: a letter, eleven fields of 12 columns, a line feed.
pub const LINE_LENGTH: usize = 134;

const LINE_FEED: u8 = 10;

// The sheet of the lines that have ended, and the bytes of the line that has not: the first `length` of `line`. The array is the room that a line grows into, which no slice says.
#[derive(Clone, Copy)]
pub struct Reading {
    pub sheet: Sheet,
    pub line: [u8; LINE_LENGTH],
    pub length: usize,
}

// Nothing is read yet.
pub fn start() -> Reading
    ensures { result ≡ start_of }
{
    Reading {
        sheet: empty_sheet(),
        line: [0u8; LINE_LENGTH],
        length: 0,
    }
}

// Nothing that follows can change the answer: a line is refused, or their number has come to its end.
pub fn stopped(r: Reading) -> bool
    ensures { result ≡ stopped_in r }
{
    has_stopped(r.sheet)
}

// A piece more. Of what follows a refused line nothing is looked at.
pub fn feed(mut r: Reading, piece: &[u8]) -> Reading
    ensures { result ≡ foldl byte_taken r piece.now }
{
    if has_stopped(r.sheet) {
        return r;
    }
    for b in piece {
        if r.length >= LINE_LENGTH {
            r.sheet = with_line(r.sheet, None);
            return r;
        }
        r.line[r.length] = *b;
        r.length += 1;
        if *b == LINE_FEED {
            r.sheet = with_line(r.sheet, line_of(&r.line[..r.length]));
            r.length = 0;
            if has_stopped(r.sheet) {
                return r;
            }
        }
    }
    r
}

// The sheet at the end of the input. A line that has not ended is of wrong form.
pub fn ended(r: Reading) -> Sheet
    ensures { result ≡ ended_of r }
{
    if r.length == 0 {
        return r.sheet;
    }
    with_line(r.sheet, None)
}
