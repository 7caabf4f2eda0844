// Whether a fault is detected within steps of a case, by the voltages and cable currents of the steps alone: no station currents, no fault current, no other variable of the run.
ghost use Rattle.std.specs.Prelude.{◌≡◌, false, cond, ◌-◌};
ghost use Rattle.state_derivatives.specs.Derivatives.{stations_in, cables_in, slopes};
ghost use Rattle.transient.specs.Rk4.{new_state};
ghost use Rattle.case_steps.specs.Plans.{plan_case_from};

use case_steps::OpenCase;
use detection::{Seen, shows_fault};
use fault_plan::FaultPlan;
use network::{Drain, Network};
use run_start::step_time_ms;
use state_derivatives::StageState;
use transient::moved_numbers;

// What case_steps leaves in `detected` after the steps from the number `first` up to `end`, which is not made.
// Once a step is detected that stays, and once the fault is cleared no step counts.
pub fn is_detected_within(plan: FaultPlan, first: u64, end: u64, start: OpenCase) -> bool
    ensures { result ≡ (plan_case_from plan first start (end - first)).detected }
{
    if start.detected {
        return true;
    }
    let v = start.variables;
    if v.fault_cleared {
        return false;
    }
    shows_before_clearing(plan, first, end, start)
}

// The steps are looked at up to the first that is detected, and up to the one that clears the fault, which counts.
fn shows_before_clearing(plan: FaultPlan, first: u64, end: u64, start: OpenCase) -> bool
    requires { (start.detected ≡ false) × (start.variables.fault_cleared ≡ false) }
    ensures { result ≡ (plan_case_from plan first start (end - first)).detected }
{
    let k = plan.constants;
    let circuit = k.circuit;
    let inception_ms = circuit.inception_time_ms;
    let network = plan.network;
    let n = network.n_stations;
    let m = network.n_cables;
    let rated = plan.rated_kv;
    let v = start.variables;
    let s = v.state;
    let mut y = s.y;
    let mut time_ms = s.time_ms;
    let mut active = v.fault_active;
    for step in first..end {
        let t_ms = step_time_ms(k.dt_ms, step);
        active = active | (inception_ms <= t_ms);
        let before = y;
        let now = StageState { y: before };
        let moved = numbers_after(&network, k.drain, k.dt_ms * 0.001, active, now);
        y = moved.y;
        // The breakers clear the fault in this step.
        let clears = active & (k.breaker_clear_ms <= t_ms - inception_ms);
        let after = Seen {
            time_ms: t_ms,
            y: &y,
        };
        let earlier = Seen {
            time_ms,
            y: &before,
        };
        let shown = shows_fault(&rated, n, m, after, earlier);
        // Step 0 does not count.
        if (1 <= step) & shown {
            return true;
        }
        if clears {
            return false;
        }
        time_ms = t_ms;
    }
    false
}

// The voltages and cable currents after a step of `dt_s` seconds: moved once the fault's inception is reached, and until then left as they are.
fn numbers_after(
    network: &Network,
    drain: Drain,
    dt_s: f64,
    active: bool,
    start: StageState,
) -> StageState
    ensures { result.y ≡ cond active (new_state (stations_in network.now) (cables_in network.now) (slopes network.now drain) dt_s start.y) start.y }
{
    if active {
        return moved_numbers(network, drain, start, dt_s);
    }
    start
}
