// A switching run in portions: 000's simulate_switching.
ghost use Rattle.std.specs.Prelude.{◌≡◌};
ghost use Rattle.portions.specs.Stopping.{memory_of};
ghost use Rattle.switching_runs.specs.SwitchingRuns.{switching_kind, switching_run_plan, stepped_switching_run, SwitchingPlanned, switching_stepper, advanced_switching_run, switching_results};

use grid::DcSwitchingSimulator;
use rules::check_switching;
use runs::{Advanced, DcTransientResult, Run};
use state_derivatives::DcTransientState;
use switching_plan::{SwitchingPlan, SwitchingVariables, switching_plan};
use switching_step::switching_step;
use timing::total_steps;

// A kept run: the grid, the operation by 000's two arguments, the steps made and 000's variables after the last of them.
#[derive(Clone, Copy)]
pub struct SwitchingRun {
    pub grid: DcSwitchingSimulator,
    pub breaker_id: u64,
    pub open: bool,
    pub steps_made: u64,
    pub variables: SwitchingVariables,
}

impl Run for SwitchingRun {
    type Plan = SwitchingPlan;

    ghost kind = { switching_kind };

    ghost plan_of_run = { switching_run_plan };

    ghost stepped_run = { stepped_switching_run };

    // no step changes the plan
    ghost stepped_plan = { λ r p. p };

    ghost planned = { SwitchingPlanned };

    fn is_refused(&self) -> bool {
        if check_switching(self.grid).is_err() {
            return true;
        }
        total_steps(self.grid) < self.steps_made
    }

    fn grid(&self) -> DcSwitchingSimulator {
        self.grid
    }

    fn steps_made(&self) -> u64 {
        self.steps_made
    }

    fn state(&self) -> DcTransientState {
        self.variables.state
    }

    fn plan(&self) -> SwitchingPlan {
        switching_plan(self.grid, self.breaker_id, self.open)
    }

    fn step(&mut self, plan: &mut SwitchingPlan) {
        let made = self.steps_made;
        self.variables = switching_step(*plan, made, self.variables);
        self.steps_made = made.saturating_add(1);
    }
}

impl SwitchingRun {
    // Makes at most `allowance` steps one by one, and writes the records of those that are recorded.
    #[tactic(auto, unfolding(crate::specs::SwitchingRuns::switching_records, crate::specs::SwitchingRuns::advanced_switching_run, runs::specs::Kinds::advanced_run))]
    pub fn advance(self, allowance: u64, records: &mut [f64]) -> Advanced<SwitchingRun>
        ensures answer { result ≡ advanced_switching_run self allowance records.old }
        ensures memory { records.new ≡ memory_of switching_stepper self allowance records.old }
    {
        runs::advance(self, allowance, records)
    }

    // 000's results.
    pub fn figures(self) -> DcTransientResult
        ensures { result ≡ switching_results }
    {
        DcTransientResult {
            peak_fault_current_ka: 0.0,
            fault_clearing_time_ms: 0.0,
            energy_dissipated_mj: 0.0,
            voltage_recovery_time_ms: 0.0,
            max_di_dt: 0.0,
            fault_cleared: true,
        }
    }
}
