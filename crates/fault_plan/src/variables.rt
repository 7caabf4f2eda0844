// The variables that the loop of 000's simulate_fault changes, by value: its flags and, beside them, its times, which have values before they are
// reached.
ghost use Rattle.std.specs.Prelude.{◌≡◌};
ghost use Rattle.fault_plan.specs.Fault.{fresh_variables};

use state_derivatives::DcTransientState;

#[derive(Clone, Copy)]
pub struct FaultVariables {
    pub state: DcTransientState,
    pub peak_fault_ka: f64,
    // kA/ms
    pub max_di_dt: f64,
    pub energy_mj: f64,
    pub fault_cleared: bool,
    // the duration until the fault is cleared
    pub clearing_time_ms: f64,
    // the duration until the voltages have recovered
    pub voltage_recovery_time_ms: f64,
    pub prev_fault_current_ka: f64,
    // from inception on
    pub fault_active: bool,
}

// The variables before any step, with a state: no current yet, the fault neither active nor cleared, and the times of clearing and of recovery at `until_ms`.
pub fn fresh_variables(state: DcTransientState, until_ms: f64) -> FaultVariables
    ensures { result ≡ fresh_variables state until_ms }
{
    FaultVariables {
        state,
        peak_fault_ka: 0.0,
        max_di_dt: 0.0,
        energy_mj: 0.0,
        fault_cleared: false,
        clearing_time_ms: until_ms,
        voltage_recovery_time_ms: until_ms,
        prev_fault_current_ka: 0.0,
        fault_active: false,
    }
}
