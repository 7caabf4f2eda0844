// The order of the lines of a sheet.
ghost use Rattle.std.specs.Prelude.{◌≡◌};
ghost use Rattle.line_order.specs.Ordered.{place_of, fault_number, refusal_number, line_refusal};

use sheet_lines::SheetLine;

// The place of a line of wrong form, which has none among the five. Places are compared with counts of lines, so they are numbers.
const NO_PLACE: usize = 5;

// The place of a line in the order T, O, S, C, B.
pub fn place_of(line: Option<SheetLine>) -> usize
    ensures { result ≡ place_of line }
{
    match line {
        Some(SheetLine::Times { .. }) => 0,
        Some(SheetLine::Order(_)) => 1,
        Some(SheetLine::Station { .. }) => 2,
        Some(SheetLine::Cable(_)) => 3,
        Some(SheetLine::Breaker { .. }) => 4,
        None => NO_PLACE,
    }
}

// Why a line is refused.
#[derive(Clone, Copy, PartialEq, Eq)]
pub enum LineFault {
    // None of the five letters with its fields and a line feed behind them: 12.
    WrongForm,
    // Not in its place behind the lines before it: 13.
    WrongOrder,
}

impl LineFault {
    // 01's number.
    pub fn number(self) -> u64
        ensures { result ≡ fault_number self }
    {
        match self {
            LineFault::WrongForm => 12,
            LineFault::WrongOrder => 13,
        }
    }
}

// Whether a line of this place may stand behind `lines` lines, the last of them of place `before`.
pub fn check_line(lines: usize, before: usize, place: usize) -> Result<(), LineFault>
    ensures { refusal_number result ≡ line_refusal lines before place }
{
    if place == NO_PLACE {
        return Err(LineFault::WrongForm);
    }
    if lines < 2 {
        if place == lines {
            return Ok(());
        }
        return Err(LineFault::WrongOrder);
    }
    if place < 2 {
        return Err(LineFault::WrongOrder);
    }
    if before <= place {
        Ok(())
    } else {
        Err(LineFault::WrongOrder)
    }
}
