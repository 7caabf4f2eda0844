// Steps of a grid's state.
use crate::grids;
use crate::requests::Request;
use fault_start::simulate_fault;
use network::{Drain, Network, drain_of, network_of};
use state_derivatives::DcTransientState;
use transient::rk4_step;

// The sum of the state after so many steps of `step` seconds, from that in which a fault run begins, with a fault on the first
// cable, or from zeros where it is refused.
pub fn sum_after_steps(r: Request) -> f64 {
    let grid = grids::grid_of(r.order);
    let fault = grids::fault_at(r.inception_ms);
    let start = match simulate_fault(grid, fault) {
        Ok(run) => run.variables.state,
        Err(_) => runs::blank_state(),
    };
    let after = after_steps(
        network_of(grid),
        drain_of(grid, fault),
        start,
        r.turns.step,
        r.turns.count,
    );
    sum_state(0.0, after)
}

// Each step is made from the state that the one before it led to.
fn after_steps(
    network: Network,
    drain: Drain,
    start: DcTransientState,
    dt_s: f64,
    count: u64,
) -> DcTransientState {
    let mut state = start;
    for _step in 0..count {
        state = rk4_step(network, drain, state, dt_s);
    }
    state
}

// Adds voltages and currents. Past the grid's parts there are zeros.
pub fn sum_state(first: f64, state: DcTransientState) -> f64 {
    let y = state.y;
    let currents = state.station_currents_ka;
    sum_entries(sum_entries(first, &y), &currents)
}

fn sum_entries(first: f64, entries: &[f64]) -> f64 {
    let mut sum = first;
    for x in entries {
        sum += *x;
    }
    sum
}
