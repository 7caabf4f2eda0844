// How far a long sweep is, on standard error: a line when another hundredth of its cases is done.
// A sweep of fewer steps in all says nothing.
const LONG_SWEEP: u64 = 1_000_000;
// No sweep has as many cases.
const MANY_CASES: u64 = 1_000_000_000;

// What has been said of a sweep of so many cases: how many hundredths of them were done. One that is not long is counted too, and nothing is said of it.
#[derive(Drop)]
pub struct Progress {
    cases: u64,
    long: bool,
    said: u64,
}

impl Progress {
    // Of a sweep that begins. It is long if all cases together have as many steps as a long sweep.
    pub fn new(cases: u64, steps_of_case: u64) -> Progress {
        Progress {
            cases,
            long: cases.saturating_mul(steps_of_case) >= LONG_SWEEP,
            said: 0,
        }
    }

    // Prints a line if the sweep is long, and more hundredths are done than were said last.
    pub fn say(&mut self, rt: &impl Eprint, done: u64) {
        let hundredths = hundredths(done, self.cases);
        if !self.long || hundredths <= self.said {
            return;
        }
        let cases = self.cases;
        let _ = eprintln!(rt; "{done} of {cases} cases");
        self.said = hundredths;
    }
}

// How many hundredths of the cases are done.
fn hundredths(done: u64, cases: u64) -> u64 {
    if cases == 0 || done > MANY_CASES {
        return 100;
    }
    done * 100 / cases
}
