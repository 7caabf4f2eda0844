// One step of classical Runge-Kutta.
ghost use Rattle.std.specs.Prelude.{◌≡◌, ◌+◌};
ghost use Rattle.std.specs.Float.{nan};
ghost use Rattle.lists.specs.Tables.{over};
ghost use Rattle.float64.specs.Constants.{nought};
ghost use Rattle.float64.specs.Arithmetic.{of};
ghost use Rattle.float64.specs.Choice.{max_of};
ghost use Rattle.state_derivatives.specs.Derivatives.{slopes, stations_in, cables_in};
ghost use Rattle.transient.specs.Rk4.{ahead, blended, weighted, new_state, rk4_step};

use float64::max;
use grid::{CableCount, Count, StationCount};
use network::{Drain, Network};
use state_derivatives::{
    DcTransientState, StageSlopes, StageState, net_currents, state_derivatives,
};

// How many of the numbers of a state are taken.
type NumberCount = Count<96>;

// The slopes of one number of the state.
#[derive(Clone, Copy)]
struct Slopes {
    k1: f64,
    k2: f64,
    k3: f64,
    k4: f64,
}

// DcSwitchingSimulator::rk4_step: k1 at the start, k2 and k3 half a step on, k4 a whole step on, and their blend.
pub fn rk4_step(
    network: Network,
    drain: Drain,
    state: DcTransientState,
    dt_s: f64,
) -> DcTransientState
    ensures { result ≡ rk4_step network drain state dt_s }
{
    let y0 = state.y;
    let start = StageState { y: y0 };
    let raised = moved_numbers(&network, drain, start, dt_s);
    let y = raised.y;
    let currents = net_currents(&network, raised);
    DcTransientState {
        y,
        station_currents_ka: currents,
        ..state
    }
}

// The voltages and cable currents after such a step, without the rest of the state. A count past the tables takes all of them.
pub fn moved_numbers(network: &Network, drain: Drain, start: StageState, dt_s: f64) -> StageState
    ensures { result.y ≡ new_state (stations_in network.now) (cables_in network.now) (slopes network.now drain) dt_s start.y }
{
    let half_s = 0.5 * dt_s;
    let k1 = state_derivatives(network, drain, start);
    let k2 = slopes_ahead(network, drain, half_s, start, k1);
    let k3 = slopes_ahead(network, drain, half_s, start, k2);
    let k4 = slopes_ahead(network, drain, dt_s, start, k3);
    let moved = blend(start, dt_s / 6.0, k1, k2, k3, k4, numbers_in(network));
    raise_voltages(moved, StationCount::of(network.n_stations))
}

// How many numbers the state of a network has.
fn numbers_in(network: &Network) -> NumberCount
    ensures { result.value ≡ stations_in network.now + cables_in network.now }
{
    let n = StationCount::of(network.n_stations);
    let m = CableCount::of(network.n_cables);
    NumberCount::of(n.value + m.value)
}

// The slopes at the state that the slopes k lead to in `ahead_s` seconds.
fn slopes_ahead(
    network: &Network,
    drain: Drain,
    ahead_s: f64,
    start: StageState,
    k: StageSlopes,
) -> StageSlopes
    ensures { result.dy ≡ slopes network.now drain (ahead (stations_in network.now + cables_in network.now) start.y ahead_s k.dy) }
{
    let there = move_along(start, ahead_s, k, numbers_in(network));
    state_derivatives(network, drain, there)
}

// Where the slopes k lead in h seconds.
fn move_along(start: StageState, h: f64, k: StageSlopes, size: NumberCount) -> StageState
    ensures { result.y ≡ ahead size.value start.y h k.dy }
{
    let y = start.y;
    let dy = k.dy;
    let mut out = [0.0; 96];
    for i in 0..size.value {
        out[i] = y[i] + h * dy[i];
    }
    StageState { y: out }
}

// Where the slopes of all four stages together lead. `sixth` is a sixth of the step in seconds. Seven parameters: where the four slopes are
// lent in one struct, or this loop stands in the step itself, more arrays are copied, and a step of two stations takes 8 to 23 percent longer.
fn blend(
    start: StageState,
    sixth: f64,
    k1: StageSlopes,
    k2: StageSlopes,
    k3: StageSlopes,
    k4: StageSlopes,
    size: NumberCount,
) -> StageState
    ensures { result.y ≡ blended size.value start.y sixth k1.dy k2.dy k3.dy k4.dy }
{
    let y = start.y;
    let dy1 = k1.dy;
    let dy2 = k2.dy;
    let dy3 = k3.dy;
    let dy4 = k4.dy;
    let mut out = [0.0; 96];
    for i in 0..size.value {
        let s = Slopes {
            k1: dy1[i],
            k2: dy2[i],
            k3: dy3[i],
            k4: dy4[i],
        };
        out[i] = y[i] + sixth * weigh(s);
    }
    StageState { y: out }
}

// k1 + 2 k2 + 2 k3 + k4, added from the left.
fn weigh(s: Slopes) -> f64
    ensures { result ≡ weighted s.k1 s.k2 s.k3 s.k4 }
{
    s.k1 + 2.0 * s.k2 + 2.0 * s.k3 + s.k4
}

// The state with each voltage at least 0, and its cable currents as they are.
fn raise_voltages(moved: StageState, n: StationCount) -> StageState
    ensures { result.y ≡ over n.value (λ i. max_of (of moved.y i) nought) nan moved.y }
{
    let mut y = moved.y;
    for i in 0..n.value {
        y[i] = max(y[i], 0.0);
    }
    StageState { y }
}
