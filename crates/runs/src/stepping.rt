// Runs of any kind, and an advance of one: steps one by one, and the records of those that are recorded.
ghost use Rattle.std.specs.Prelude.{◌≡◌, ◌<◌, false};
ghost use Rattle.timing.specs.Steps.{most_steps};
ghost use Rattle.portions.specs.Stopping.{memory_of};
ghost use Rattle.runs.specs.Kinds.{RunKind, Ready, Stepped, run_stepper, advanced_run};

use grid::DcSwitchingSimulator;
use portions::{Stop, reason};
use records::{put_if_recorded, record_counts};
use state_derivatives::DcTransientState;
use timing::{is_recorded, record_length, total_steps};

// A run after an advance, why that stopped, the steps that it made and the records that it wrote.
#[derive(Clone, Copy)]
pub struct Advanced<R> {
    pub stop: Stop,
    pub steps: u64,
    pub records: u64,
    pub run: R,
}

// What is advanced step by step.
pub trait Run: Copy {
    // What an advance works out once, and what it carries from step to step besides the run.
    type Plan: Copy;

    ghost kind: { RunKind Self };

    // the plan that `plan` works out of a run, also of one that rule 11 refuses
    ghost plan_of_run: { Self → Self.Plan };

    // the run and the plan after a step, also by a plan of another run and past the last step
    ghost stepped_run: { Self → Self.Plan → Self };

    ghost stepped_plan: { Self → Self.Plan → Self.Plan };

    // whether a plan is one of a run
    ghost planned: { Self → Self.Plan → Type 0 };

    // Whether rule 11 refuses it.
    fn is_refused(&self) -> bool
        ensures { result ≡ kind.refused self.now };

    fn grid(&self) -> DcSwitchingSimulator
        ensures { result ≡ kind.grid self.now };

    fn steps_made(&self) -> u64
        ensures { result ≡ kind.steps_made self.now };

    fn state(&self) -> DcTransientState
        ensures { result ≡ kind.state self.now };

    fn plan(&self) -> Self::Plan
        ensures answer { result ≡ plan_of_run self.now }
        ensures planned { kind.refused self.now ≡ false → planned self.now result }
        ensures ready { kind.refused self.now ≡ false → Ready (kind.grid self.now) (kind.steps_made self.now) };

    // Makes a step by a plan. By a plan of the run it is the run's next.
    fn step(&mut self, plan: &mut Self::Plan)
        ensures run { self.new ≡ stepped_run self.old plan.old }
        ensures plan { plan.new ≡ stepped_plan self.old plan.old }
        ensures next { planned self.old plan.old → kind.steps_made self.old < most_steps → Stepped kind planned self.old self.new plan.new };
}

// Makes at most `allowance` steps one by one, and writes the records of those that are recorded.
pub fn advance<R: Run>(mut run: R, allowance: u64, records: &mut [f64]) -> Advanced<R>
    ensures answer { result ≡ advanced_run R.kind run allowance records.old }
    ensures memory { records.new ≡ memory_of (run_stepper R.kind) run allowance records.old }
{
    if run.is_refused() {
        return Advanced {
            stop: Stop::Refused,
            steps: 0,
            records: 0,
            run,
        };
    }
    let g = run.grid();
    let n = total_steps(g);
    let size = record_length(g);
    let space = records.len() / size;
    let counts = record_counts(g);
    let mut plan = run.plan();
    let mut out: usize = 0;
    for steps in 0..allowance {
        let made = run.steps_made();
        let recorded = is_recorded(made, n);
        let ended = made == n;
        let full = recorded & (out == space);
        if ended | full {
            return Advanced {
                stop: reason(ended, false),
                steps,
                records: out as u64,
                run,
            };
        }
        run.step(&mut plan);
        out += put_if_recorded(recorded, records, size * out, run.state(), counts);
    }
    let ended = run.steps_made() == n;
    Advanced {
        stop: reason(ended, true),
        steps: allowance,
        records: out as u64,
        run,
    }
}
