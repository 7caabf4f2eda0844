// A fault run in portions: 000's simulate_fault.
ghost use Rattle.std.specs.Prelude.{◌≡◌, cond};
ghost use Rattle.portions.specs.Stopping.{memory_of};
ghost use Rattle.fault_runs.specs.FaultRuns.{fault_kind, fault_run_plan, stepped_fault_run, stepped_fault_plan, FaultPlanned, fault_stepper, advanced_fault_run, fault_figures};

use fault_plan::{FaultPlan, FaultVariables, fault_plan, quiet_step, rests, waits};
use fault_step::fault_step;
use grid::{DcFaultEvent, DcSwitchingSimulator};
use rules::check_fault;
use runs::{Advanced, DcTransientResult, Run};
use state_derivatives::DcTransientState;
use timing::{duration_ms, total_steps};

// A kept run: the grid, the event, the steps made and 000's variables after the last of them.
#[derive(Clone, Copy)]
pub struct FaultRun {
    pub grid: DcSwitchingSimulator,
    pub fault: DcFaultEvent,
    pub steps_made: u64,
    pub variables: FaultVariables,
}

// What an advance carries from step to step besides the run: the plan, and whether no later step changes an array. Such a step, and one before
// inception, is made without touching one. Where the flag is false nothing is missing.
#[derive(Clone, Copy)]
pub struct FaultSteps {
    plan: FaultPlan,
    resting: bool,
}

impl Run for FaultRun {
    type Plan = FaultSteps;

    ghost kind = { fault_kind };

    ghost plan_of_run = { fault_run_plan };

    ghost stepped_run = { stepped_fault_run };

    ghost stepped_plan = { stepped_fault_plan };

    ghost planned = { FaultPlanned };

    fn is_refused(&self) -> bool {
        let g = self.grid;
        let fault = self.fault;
        if check_fault(g, fault).is_err() {
            return true;
        }
        total_steps(g) < self.steps_made
    }

    fn grid(&self) -> DcSwitchingSimulator {
        self.grid
    }

    fn steps_made(&self) -> u64 {
        self.steps_made
    }

    fn state(&self) -> DcTransientState {
        self.variables.state
    }

    fn plan(&self) -> FaultSteps {
        FaultSteps {
            plan: fault_plan(self.grid, self.fault),
            resting: false,
        }
    }

    fn step(&mut self, plan: &mut FaultSteps) {
        let made = self.steps_made;
        let v = self.variables;
        self.steps_made = made.saturating_add(1);
        if plan.resting | waits(plan.plan.constants, made, v) {
            self.variables = quiet_step(plan.plan.constants, made, v);
            return;
        }
        self.variables = fault_step(plan.plan, made, v);
        plan.resting = rests(plan.plan, self.variables);
    }
}

impl FaultRun {
    // Makes at most `allowance` steps one by one, and writes the records of those that are recorded.
    #[tactic(auto, unfolding(crate::specs::FaultRuns::fault_records, crate::specs::FaultRuns::advanced_fault_run, runs::specs::Kinds::advanced_run))]
    pub fn advance(self, allowance: u64, records: &mut [f64]) -> Advanced<FaultRun>
        ensures answer { result ≡ advanced_fault_run self allowance records.old }
        ensures memory { records.new ≡ memory_of fault_stepper self allowance records.old }
    {
        runs::advance(self, allowance, records)
    }

    // 000's results once the run is finished; before that its variables.
    pub fn figures(self) -> DcTransientResult
        ensures { result ≡ fault_figures self }
    {
        let g = self.grid;
        let v = self.variables;
        let finished = self.steps_made == total_steps(g);
        let uncleared = finished & !v.fault_cleared;
        DcTransientResult {
            peak_fault_current_ka: v.peak_fault_ka,
            fault_clearing_time_ms: clearing_time(uncleared, v.clearing_time_ms, duration_ms(g)),
            energy_dissipated_mj: v.energy_mj,
            voltage_recovery_time_ms: v.voltage_recovery_time_ms,
            max_di_dt: v.max_di_dt,
            fault_cleared: v.fault_cleared,
        }
    }
}

// The clearing time that is shown: the duration where a run ends without clearing. A function, so that `figures` has one path.
fn clearing_time(uncleared: bool, clearing_time_ms: f64, duration_ms: f64) -> f64
    ensures { result ≡ cond uncleared duration_ms clearing_time_ms }
{
    if uncleared {
        return duration_ms;
    }
    clearing_time_ms
}
