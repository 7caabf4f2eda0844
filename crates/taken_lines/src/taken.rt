// A sheet, a line at a time.
ghost use Rattle.std.specs.Prelude.{◌≡◌};
ghost use Rattle.taken_lines.specs.Taken.{first_of, stopped_at, contents_with, with_line, empty_sheet};

use grid::{DcSwitchingSimulator, SweepOrder};
use line_order::{check_line, place_of};
use sheet_lines::SheetLine;
use sheet_parts::{MOST_LINES, counted_on, with_breaker, with_cable, with_station};
use whole_sheets::SheetFault;

// What the lines taken so far say.
#[derive(Clone, Copy)]
pub struct Sheet {
    pub grid: DcSwitchingSimulator,
    pub order: SweepOrder,
    // how many lines are taken, and the place of the last of them in T, O, S, C, B
    pub lines: usize,
    pub last: usize,
    // the number of the first S, C and B line that rule 6, 7 or 8 refuses, or 0, which X prints where no line shows a rule
    pub bad_station: usize,
    pub bad_cable: usize,
    pub bad_breaker: usize,
    // why the line behind these is refused, once it is: by 12 or 13, or by whatever else a caller puts here
    pub fault: Option<SheetFault>,
}

// A sheet of which no line is read.
pub fn empty_sheet() -> Sheet
    ensures { result ≡ empty_sheet }
{
    Sheet {
        grid: DcSwitchingSimulator::new(0.0, 0.0),
        order: SweepOrder {
            fault_resistance: 0.0,
            inception_time_ms: 0.0,
            low_tenth: 0,
            high_tenth: 0,
        },
        lines: 0,
        last: 0,
        bad_station: 0,
        bad_cable: 0,
        bad_breaker: 0,
        fault: None,
    }
}

// No line behind these matters: one is refused, or their number has come to its end.
pub fn has_stopped(s: Sheet) -> bool
    ensures { result ≡ stopped_at s }
{
    s.fault.is_some() | (MOST_LINES <= s.lines)
}

// The number of the first bad line: the one known before, or this one if it is bad.
fn first_of(before: usize, bad: bool, line: usize) -> usize
    ensures { result ≡ first_of before bad line }
{
    if before != 0 {
        return before;
    }
    if bad { line } else { 0 }
}

// What a line adds to the grid and the order, and whether it is the first bad one of its letter.
#[tactic(auto, unfolding(crate::specs::Taken::contents_with))]
fn contents_with(s: Sheet, line: Option<SheetLine>) -> Sheet
    ensures { result ≡ contents_with s line }
{
    let number = counted_on(s.lines);
    match line {
        Some(SheetLine::Times { dt_us, duration_ms }) => Sheet {
            grid: DcSwitchingSimulator::new(dt_us, duration_ms),
            ..s
        },
        Some(SheetLine::Order(order)) => Sheet { order, ..s },
        Some(SheetLine::Station { station, known }) => {
            let within = part_checks::check_station(station);
            Sheet {
                grid: with_station(s.grid, station),
                bad_station: first_of(s.bad_station, !(known & within), number),
                ..s
            }
        }
        Some(SheetLine::Cable(cable)) => {
            let within = part_checks::check_cable(cable);
            Sheet {
                grid: with_cable(s.grid, cable),
                bad_cable: first_of(s.bad_cable, !within, number),
                ..s
            }
        }
        Some(SheetLine::Breaker { breaker, known }) => {
            let within = part_checks::check_breaker(breaker);
            Sheet {
                grid: with_breaker(s.grid, breaker),
                bad_breaker: first_of(s.bad_breaker, !(known & within), number),
                ..s
            }
        }
        None => s,
    }
}

// The sheet with a line more, or with its refusal.
#[tactic(auto, using(crate::proofs::Ways::taken_way, crate::proofs::Ways::stopped_way))]
pub fn with_line(s: Sheet, line: Option<SheetLine>) -> Sheet
    ensures { result ≡ with_line s line }
{
    if has_stopped(s) {
        return s;
    }
    let place = place_of(line);
    match check_line(s.lines, s.last, place) {
        Ok(()) => Sheet {
            lines: counted_on(s.lines),
            last: place,
            ..contents_with(s, line)
        },
        Err(fault) => Sheet {
            fault: Some(SheetFault::Line(fault)),
            ..s
        },
    }
}
