// The body of the loop in 000's simulate_switching.
ghost use Rattle.std.specs.Prelude.{◌≡◌, not, cond, length, map};
ghost use Rattle.float64.specs.Arithmetic.{◌⊗◌};
ghost use Rattle.float64.specs.Constants.{half};
ghost use Rattle.switching_plan.specs.Switching.{is_operated, breakers_after, interrupted};
ghost use Rattle.switching_plan.specs.Plans.{switching_plan_step};

use grid::{BreakerCount, CableCount, MOST_BREAKERS, StationCount};
use network::no_drain;
use run_start::step_time_ms;
use state_derivatives::DcTransientState;
use switching_plan::{SwitchingPlan, SwitchingVariables};
use transient::rk4_step;

// The variables after a step; steps are numbered from 0. The first step whose time has come operates the breakers before it moves the state.
#[tactic(auto, unfolding(switching_plan::specs::Plans::switching_plan_step, switching_plan::specs::Switching::switch_body, switching_plan::specs::Switching::operated_state))]
pub fn switching_step(plan: SwitchingPlan, step: u64, v: SwitchingVariables) -> SwitchingVariables
    ensures { result ≡ switching_plan_step plan step v }
{
    let network = plan.network;
    let t_ms = step_time_ms(plan.dt_ms, step);
    let state = v.state;
    let mut y = state.y;
    let mut breakers = state.breaker_states;
    let currents = state.station_currents_ka;
    let reached = plan.switching_time_ms <= t_ms;
    let switches = !v.switched & reached;
    operate(
        &mut breakers,
        switches,
        plan.breaker_id,
        BreakerCount::of(plan.n_breakers),
        plan.open,
    );
    interrupt(
        &mut y,
        switches & plan.open,
        StationCount::of(network.n_stations),
        CableCount::of(network.n_cables),
    );
    let before = DcTransientState {
        time_ms: t_ms,
        y,
        station_currents_ka: currents,
        fault_current_ka: state.fault_current_ka,
        breaker_states: breakers,
    };
    let after = rk4_step(network, no_drain(), before, plan.dt_ms * 0.001);
    SwitchingVariables {
        state: after,
        switched: v.switched | reached,
    }
}

// Sets the breaker of a number, or all where the grid has none of that number, in the step that switches. The array is lent whole with its count, here and in
// `interrupt`: whether the step switches is asked here, so that a step has one path, and only then is the slice of it made.
fn operate(
    breakers: &mut [bool; MOST_BREAKERS],
    switches: bool,
    breaker_id: u64,
    n: BreakerCount,
    open: bool,
)
    ensures { breakers.new ≡ cond switches (breakers_after n.value breaker_id «open» breakers.old) breakers.old }
{
    if switches {
        set_operated(&mut breakers[..n.value], breaker_id, open);
    }
}

fn set_operated(breakers: &mut [bool], breaker_id: u64, open: bool)
    ensures { breakers.new ≡ breakers_after (length breakers.old) breaker_id «open» breakers.old }
{
    let n = breakers.len() as u64;
    for (i, closed) in breakers.iter_mut().enumerate() {
        *closed = operated(*closed, i as u64, n, breaker_id, open);
    }
}

// Whether breaker i of n is closed after the operation.
fn operated(closed: bool, i: u64, n: u64, breaker_id: u64, open: bool) -> bool
    ensures { result ≡ cond (is_operated n breaker_id i) (not «open») closed }
{
    if (i == breaker_id) | (n <= breaker_id) {
        return !open;
    }
    closed
}

// Halves the cable currents in the step that opens.
fn interrupt(y: &mut [f64; 96], opens: bool, n: StationCount, m: CableCount)
    ensures { y.new ≡ cond opens (interrupted n.value m.value y.old) y.old }
{
    if opens {
        halve(&mut y[n.value..n.value + m.value]);
    }
}

fn halve(currents: &mut [f64])
    ensures { currents.new ≡ map (λ i. i ⊗ half) currents.old }
{
    for current in currents.iter_mut() {
        *current = *current * 0.5;
    }
}
