// Steps of a fault run that change no voltage, cable current or breaker: before inception, and after clearing once the voltages rest.
ghost use Rattle.std.specs.Prelude.{◌≡◌, cond};
ghost use Rattle.fault_current.specs.Current.{decayed_of};
ghost use Rattle.fault_plan.specs.Quiet.{waits_by, rests_by, quiet_step};

use crate::plan::{FaultConstants, FaultPlan};
use crate::variables::FaultVariables;
use fault_circuit::FaultCircuit;
use fault_current::decayed_current_ka;
use recovery::{all_recovered, none_below};
use run_start::step_time_ms;
use state_derivatives::DcTransientState;

// Whether a step comes before inception: the fault is neither cleared nor active.
pub fn waits(k: FaultConstants, step: u64, v: FaultVariables) -> bool
    ensures { result ≡ waits_by k step v }
{
    let circuit = k.circuit;
    let reached = circuit.inception_time_ms <= step_time_ms(k.dt_ms, step);
    !(v.fault_cleared | v.fault_active | reached)
}

// Whether the fault is cleared, no voltage is below its rated one, and the time of recovery stays as it is. Then this holds before every later step too.
#[tactic(auto, unfolding(crate::specs::Quiet::rests_by))]
pub fn rests(plan: FaultPlan, v: FaultVariables) -> bool
    ensures { result ≡ rests_by plan v }
{
    if v.fault_cleared {
        let k = plan.constants;
        let rated = plan.rated_kv;
        let state = v.state;
        let y = state.y;
        let n = k.n_stations;
        let recovers = all_recovered(&y, &rated, n) & (k.duration_ms <= v.voltage_recovery_time_ms);
        return none_below(&y, &rated, n) & !recovers;
    }
    false
}

// The variables after a step that changes no array: only the time goes on, and after clearing what is left of the current fades.
#[tactic(auto, unfolding(crate::specs::Quiet::quiet_step))]
pub fn quiet_step(k: FaultConstants, step: u64, v: FaultVariables) -> FaultVariables
    ensures { result ≡ quiet_step k step v }
{
    let circuit = k.circuit;
    let t_ms = step_time_ms(k.dt_ms, step);
    let s = v.state;
    let state = DcTransientState {
        time_ms: t_ms,
        fault_current_ka: quiet_current_ka(circuit, v, t_ms),
        ..s
    };
    FaultVariables {
        state,
        fault_active: v.fault_active | (circuit.inception_time_ms <= t_ms),
        ..v
    }
}

// The fault current after such a step.
fn quiet_current_ka(circuit: FaultCircuit, v: FaultVariables, t_ms: f64) -> f64
    ensures { result ≡ cond v.fault_cleared (decayed_of circuit v.prev_fault_current_ka v.clearing_time_ms t_ms) v.state.fault_current_ka }
{
    if v.fault_cleared {
        return decayed_current_ka(circuit, v.prev_fault_current_ka, v.clearing_time_ms, t_ms);
    }
    let state = v.state;
    state.fault_current_ka
}
