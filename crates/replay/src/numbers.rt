// A number to a line: right-justified in 21 columns after spaces, then a line feed.
ghost use Rattle.std.specs.Prelude.{◌≡◌, length};

pub const COLUMNS: usize = 21;
// With the line feed.
pub const LINE: usize = COLUMNS + 1;
// A whole number of lines, so that none is cut in two.
pub const ROOM: usize = 1024 * LINE;
// Where the last of them starts.
pub const LAST: usize = ROOM - LINE;

// Why the reading ends: with the input, at a number that there may not be, or where answers cannot be written. Nothing more is then answered.
#[derive(Clone, Copy)]
pub struct Ended;

// What is answered as a number.
pub trait Answer: Copy {
    fn number(self) -> u64;
}

impl Answer for u64 {
    fn number(self) -> u64 {
        self
    }
}

// 1 or 0.
impl Answer for bool {
    fn number(self) -> u64 {
        u64::from(self)
    }
}

// By its bits.
impl Answer for f64 {
    fn number(self) -> u64 {
        float64::to_bits(self)
    }
}

// The number in a line, unless the line has another form.
pub fn number_in(line: &[u8]) -> Result<u64, Ended>
    requires { length line.now ≡ LINE }
{
    let mut number = None;
    for glyph in &line[..COLUMNS] {
        number = with_glyph(number, *glyph)?;
    }
    if line[COLUMNS] != b'\n' {
        return Err(Ended);
    }
    number.ok_or(Ended)
}

// The number with one column more, None while only spaces have come. The reading ends at a glyph that may not stand there, and at a number that does not fit.
fn with_glyph(number: Option<u64>, glyph: u8) -> Result<Option<u64>, Ended> {
    match (number, glyph) {
        (None, b' ') => Ok(None),
        (_, b'0'..=b'9') => {
            let digit = u64::from(glyph - b'0');
            let ten_times = number.unwrap_or(0).checked_mul(10).ok_or(Ended)?;
            Ok(Some(ten_times.checked_add(digit).ok_or(Ended)?))
        }
        _ => Err(Ended),
    }
}
