// The body of the loop in 000's simulate_fault.
ghost use Rattle.std.specs.Prelude.{◌≡◌, false, cond};
ghost use Rattle.lists.specs.Tables.{blank};
ghost use Rattle.fault_plan.specs.Fault.{di_dt, dissipated, while_faulted, after_clearing};
ghost use Rattle.fault_plan.specs.Plans.{plan_setting, plan_step};

use fault_current::{decayed_current_ka, fault_current_ka};
use fault_plan::{FaultPlan, FaultVariables, quiet_step, waits};
use float64::{abs, max};
use grid::MOST_BREAKERS;
use recovery::{all_recovered, recover_voltages};
use run_start::step_time_ms;
use state_derivatives::DcTransientState;
use transient::rk4_step;

// The variables after a step; steps are numbered from 0. Its phase is tested first: before inception nothing but the time goes on.
pub fn fault_step(plan: FaultPlan, step: u64, v: FaultVariables) -> FaultVariables
    ensures { result ≡ plan_step plan step v }
{
    let k = plan.constants;
    if waits(k, step, v) {
        return quiet_step(k, step, v);
    }
    let t_ms = step_time_ms(k.dt_ms, step);
    if v.fault_cleared {
        return after_clearing(plan, v, t_ms);
    }
    while_faulted(plan, v, t_ms)
}

// The fault is active and not cleared: an RK4 step is made.
fn while_faulted(plan: FaultPlan, v: FaultVariables, t_ms: f64) -> FaultVariables
    ensures { result ≡ while_faulted (plan_setting plan) t_ms v }
{
    let k = plan.constants;
    let circuit = k.circuit;
    let before = v.state;
    let breakers = before.breaker_states;
    let after = rk4_step(plan.network, k.drain, before, k.dt_ms * 0.001);
    let i_fault_ka = fault_current_ka(circuit, t_ms);
    let clears = k.breaker_clear_ms <= t_ms - circuit.inception_time_ms;
    let r_ohm = circuit.r_fault_ohm + circuit.r_total_ohm;
    let state = DcTransientState {
        time_ms: t_ms,
        fault_current_ka: i_fault_ka,
        breaker_states: opened_if(clears, breakers),
        ..after
    };
    FaultVariables {
        state,
        peak_fault_ka: max(v.peak_fault_ka, i_fault_ka),
        max_di_dt: max(
            v.max_di_dt,
            di_dt(i_fault_ka, v.prev_fault_current_ka, k.dt_ms),
        ),
        energy_mj: v.energy_mj + dissipated_mj(i_fault_ka, r_ohm, k.dt_ms),
        fault_cleared: clears,
        clearing_time_ms: choose(clears, t_ms, v.clearing_time_ms),
        voltage_recovery_time_ms: v.voltage_recovery_time_ms,
        prev_fault_current_ka: i_fault_ka,
        fault_active: true,
    }
}

// How fast the fault current has changed, in kA/ms.
fn di_dt(i_fault_ka: f64, prev_fault_current_ka: f64, dt_ms: f64) -> f64
    ensures { result ≡ di_dt dt_ms i_fault_ka prev_fault_current_ka }
{
    abs(i_fault_ka - prev_fault_current_ka) / max(dt_ms, 0.000000000001)
}

// The heat of one step in MJ: I * I * R * dt.
fn dissipated_mj(i_fault_ka: f64, r_ohm: f64, dt_ms: f64) -> f64
    ensures { result ≡ dissipated dt_ms r_ohm i_fault_ka }
{
    let i_a = i_fault_ka * 1000.0;
    i_a * i_a * r_ohm * (dt_ms * 0.001) / 1000000.0
}

// The breakers after a step: all open if it clears the fault, else as they were.
fn opened_if(clears: bool, breakers: [bool; MOST_BREAKERS]) -> [bool; MOST_BREAKERS]
    ensures { result ≡ cond clears (blank 32 false) breakers }
{
    if clears {
        return [false; MOST_BREAKERS];
    }
    breakers
}

// The fault is cleared: no RK4 step, what is left of the current fades, and the voltages recover.
fn after_clearing(plan: FaultPlan, v: FaultVariables, t_ms: f64) -> FaultVariables
    ensures { result ≡ after_clearing (plan_setting plan) t_ms v }
{
    let k = plan.constants;
    let circuit = k.circuit;
    let rated = plan.rated_kv;
    let before = v.state;
    let mut y = before.y;
    let recovered = all_recovered(&y, &rated, k.n_stations);
    recover_voltages(&mut y, &rated, k.n_stations);
    let first = recovered & (k.duration_ms <= v.voltage_recovery_time_ms);
    let left_ka = decayed_current_ka(circuit, v.prev_fault_current_ka, v.clearing_time_ms, t_ms);
    let state = DcTransientState {
        time_ms: t_ms,
        y,
        fault_current_ka: left_ka,
        ..before
    };
    FaultVariables {
        state,
        fault_cleared: true,
        voltage_recovery_time_ms: choose(first, t_ms, v.voltage_recovery_time_ms),
        fault_active: v.fault_active | (circuit.inception_time_ms <= t_ms),
        ..v
    }
}

// The first where the test holds, else the second. A function, so that a step has one path.
fn choose(test: bool, yes: f64, no: f64) -> f64
    ensures { result ≡ cond test yes no }
{
    if test { yes } else { no }
}
