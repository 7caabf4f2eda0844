// What a sheet is answered by: its grid and its order, or why it is refused.
ghost use Rattle.std.specs.Prelude.{◌≡◌};
ghost use Rattle.whole_sheets.specs.Sheets.{fault_number, fault_in};

use crate::other::OtherNumber;
use grid::{DcSwitchingSimulator, SweepOrder};
use line_order::LineFault;
use rules::Refusal;

// What a sheet is refused by.
#[derive(Clone, Copy, PartialEq, Eq)]
pub enum SheetFault {
    // A line, or one that is missing: 12 or 13.
    Line(LineFault),
    // A rule that the grid or the order breaks, or one of 6, 7 and 8 that a line breaks.
    Rule(Refusal),
    // What has another number: no reading of a sheet gives one, but a caller can put it there.
    Other(OtherNumber),
}

impl SheetFault {
    // The fault that has this number, whichever it is; None at 0 alone.
    #[tactic(auto, unfolding(rules::specs::Studies::rule_number))]
    pub fn of(number: u64) -> Option<SheetFault>
        ensures { fault_in result ≡ number }
    {
        match number {
            0 => None,
            1 => Some(SheetFault::Rule(Refusal::NoStation)),
            2 => Some(SheetFault::Rule(Refusal::NoCable)),
            3 => Some(SheetFault::Rule(Refusal::TooManyParts)),
            4 => Some(SheetFault::Rule(Refusal::TimeOutside)),
            5 => Some(SheetFault::Rule(Refusal::TooManySteps)),
            6 => Some(SheetFault::Rule(Refusal::StationOutside)),
            7 => Some(SheetFault::Rule(Refusal::CableOutside)),
            8 => Some(SheetFault::Rule(Refusal::BreakerOutside)),
            9 => Some(SheetFault::Rule(Refusal::EventOutside)),
            10 => Some(SheetFault::Rule(Refusal::NotConverged)),
            12 => Some(SheetFault::Line(LineFault::WrongForm)),
            13 => Some(SheetFault::Line(LineFault::WrongOrder)),
            _ => Some(SheetFault::Other(OtherNumber { number })),
        }
    }

    // 01's number.
    pub fn number(self) -> u64
        ensures { result ≡ fault_number self }
    {
        match self {
            SheetFault::Line(fault) => fault.number(),
            SheetFault::Rule(rule) => rule.number(),
            SheetFault::Other(other) => other.number,
        }
    }
}

// Why a sheet is refused, and the number of the line that shows it, as both are printed: lines count from 1, and 0 stands for none.
#[derive(Clone, Copy, PartialEq, Eq)]
pub struct SheetRefusal {
    pub fault: SheetFault,
    pub line: u64,
}

// What a sheet holds that breaks none of the rules that a sheet shows, 1 to 9, 12 and 13.
#[derive(Clone, Copy)]
pub struct SheetContents {
    pub grid: DcSwitchingSimulator,
    pub order: SweepOrder,
}
