// What a sweep keeps of its open case.
ghost use Rattle.std.specs.Prelude.{◌≡◌};
ghost use Rattle.case_steps.specs.OpenCases.{start_case, no_case, outcome_in};

use case_reasons::CaseOutcome;
use fault_plan::{FaultVariables, first_fault_variables, fresh_variables};
use grid::DcSwitchingSimulator;
use runs::blank_state;

// A case after the last of its steps that is made: the fields of a kept sweep, of which a current of 0 is no missing one.
#[derive(Clone, Copy)]
pub struct OpenCase {
    // 000's variables. Their state is that of the last step.
    pub variables: FaultVariables,
    // Whether a step that reason 8 counts has been detected.
    pub detected: bool,
    // The fault current of the clearing step, 0 before it.
    pub clearing_current_ka: f64,
}

// A case of which no step is made: the initial values of 000's variables.
pub fn first_open_case(g: DcSwitchingSimulator) -> OpenCase
    ensures { result ≡ start_case g }
{
    OpenCase {
        variables: first_fault_variables(g),
        detected: false,
        clearing_current_ka: 0.0,
    }
}

// Where no case is left: all zero and false.
pub fn no_open_case() -> OpenCase
    ensures { result ≡ no_case }
{
    OpenCase {
        variables: fresh_variables(blank_state(), 0.0),
        detected: false,
        clearing_current_ka: 0.0,
    }
}

// What the steps made so far lead to.
pub fn case_outcome(c: OpenCase) -> CaseOutcome
    ensures { result ≡ outcome_in c }
{
    let v = c.variables;
    CaseOutcome {
        cleared: v.fault_cleared,
        clearing_current_ka: c.clearing_current_ka,
        energy_mj: v.energy_mj,
        peak_fault_ka: v.peak_fault_ka,
        detected: c.detected,
    }
}
