// The listing of a sheet: its rows as their cases close, and its totals; or its refusal.
use crate::output::{MEMORY, print_end, print_refusal, print_rows};
use crate::progress::Progress;
use fault_cases::{FAULT_TYPES, MOST_TENTHS, case_count};
use fault_sweep::Sweep;
use portions::Stop;
use sheet::{SheetContents, SheetRefusal};
use std::io;
use sweep_start::start_sweep;
use timing::{MOST_STEPS, total_steps};

// A cable has no more cases: three types at eleven tenths.
const CASES_OF_CABLE: u64 = FAULT_TYPES * (MOST_TENTHS + 1);
// A loop has to end, and no sweep has more calls than this.
const CALLS: u64 = u64::MAX;

// Prints the listing of a sheet, or by what it is refused. Of the rules a sheet does not show 10: it has no line.
pub fn print_answer(
    rt: &(impl Print + Eprint),
    answer: Result<SheetContents, SheetRefusal>,
) -> io::Result<()> {
    let contents = match answer {
        Ok(contents) => contents,
        Err(refusal) => return print_refusal(rt, refusal.fault.number(), refusal.line),
    };
    match start_sweep(contents.grid, contents.order) {
        Ok(sweep) => print_cases(rt, sweep),
        Err(refusal) => print_refusal(rt, refusal.number(), 0),
    }
}

// How many steps a call is allowed: those of all cases of a cable, which are worked out together.
fn allowance_of(cases: u64, cables: usize, steps_of_case: u64) -> u64 {
    if cables == 0 {
        return steps_of_case;
    }
    let of_cable = cases / cables as u64;
    if of_cable > CASES_OF_CABLE || steps_of_case > MOST_STEPS {
        return steps_of_case;
    }
    of_cable * steps_of_case
}

// Runs a sweep to its end, and prints each call's rows before the next.
fn print_cases(rt: &(impl Print + Eprint), start: Sweep) -> io::Result<()> {
    let grid = start.grid;
    let cases = case_count(grid, start.order);
    let steps_of_case = total_steps(grid);
    let allowance = allowance_of(cases, grid.n_cables, steps_of_case);
    let mut progress = Progress::new(cases, steps_of_case);
    let mut memory = [0u64; MEMORY];
    let mut sweep = start;
    let mut steps: u64 = 0;
    for _call in 0..CALLS {
        let advanced = sweep.advance(allowance, &mut memory);
        steps = steps.saturating_add(advanced.steps);
        print_rows(rt, &memory, advanced.rows)?;
        sweep = advanced.sweep;
        progress.say(rt, sweep.case_number);
        if matches!(advanced.stop, Stop::Finished) {
            return print_end(rt, cases, steps);
        }
    }
    Ok(())
}
