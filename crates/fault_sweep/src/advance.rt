// An advance of a sweep: the loop over its cases.
ghost use Rattle.std.specs.Prelude.{◌≡◌};
ghost use Rattle.portions.specs.Stopping.{memory_of};
ghost use Rattle.fault_sweep.specs.Advance.{sweep_broken, sweep_stepper, advanced_sweep};

use crate::sweep::{AdvancedSweep, Sweep};
use case_reasons::ROW_LENGTH;
use case_rows::Swept;
use closed_cases::{CaseToClose, closed_outcome, ends_held, no_cable_ends};
use fault_cases::case_count;
use portions::{Stop, reason};
use rules::check_sweep;
use sweep_cases::{common_of, make_steps, open_case, steps_left_open};
use timing::total_steps;

impl Sweep {
    // Makes at most `allowance` steps, and writes the rows of the cases that they close. A case that stays open has its steps made one by
    // one; of one that is closed only what its row is read from is worked out.
    pub fn advance(self, allowance: u64, rows: &mut [u64]) -> AdvancedSweep
        ensures answer { result ≡ advanced_sweep self allowance rows.old }
        ensures memory { rows.new ≡ memory_of sweep_stepper self allowance rows.old }
    {
        if is_broken(self) {
            return AdvancedSweep {
                stop: Stop::Refused,
                steps: 0,
                rows: 0,
                sweep: self,
            };
        }
        let g = self.grid;
        let order = self.order;
        let swept = Swept {
            grid: g,
            order,
            flow: self.flow,
        };
        let n = total_steps(g);
        let cases = case_count(g, order);
        let space = rows.len() / ROW_LENGTH;
        // A call that does not reach the end of the open case closes none.
        let closes = n - self.steps_made <= allowance;
        let common = common_of(g, order, closes);
        let mut made = self.steps_made;
        let mut c = self.open_case;
        // The case that is open was opened by this call, and none of its steps is made.
        let mut fresh = false;
        let mut ends = no_cable_ends();
        let mut steps: u64 = 0;
        let mut out: usize = 0;
        for k in self.case_number..cases {
            let left = n - made;
            let allowed = allowance - steps;
            // Known before its steps are made: the call closes the case, or leaves it open.
            if (left <= allowed) & (out < space) {
                ends = ends_held(common, ends, k, allowed, space - out);
                let case = CaseToClose {
                    number: k,
                    made,
                    kept: c,
                    fresh,
                };
                let outcome = closed_outcome(common, ends, case);
                out += swept.put_case(rows, out, k, outcome);
                steps += left;
                made = 0;
                c = open_case(g, k + 1 == cases);
                fresh = true;
            } else {
                let count = steps_left_open(left, allowed);
                let end = made + count;
                let c_end = make_steps(common, k, made, end, c);
                let steps_end = steps + count;
                return AdvancedSweep {
                    stop: reason(false, steps_end == allowance),
                    steps: steps_end,
                    rows: out as u64,
                    sweep: Sweep {
                        case_number: k,
                        steps_made: end,
                        open_case: c_end,
                        ..self
                    },
                };
            }
        }
        AdvancedSweep {
            stop: Stop::Finished,
            steps,
            rows: out as u64,
            sweep: Sweep {
                case_number: cases,
                steps_made: made,
                open_case: c,
                ..self
            },
        }
    }
}

// Whether rule 11 refuses a kept sweep.
fn is_broken(s: Sweep) -> bool
    ensures { result ≡ sweep_broken s }
{
    let g = s.grid;
    let order = s.order;
    if check_sweep(g, order).is_err() {
        return true;
    }
    let cases = case_count(g, order);
    let none_left = s.case_number == cases;
    (cases < s.case_number) | (total_steps(g) <= s.steps_made) | (none_left & (s.steps_made != 0))
}
