// Flows.
use crate::grids;
use crate::requests::Request;
use grid::DcSwitchingSimulator;
use power_flow::solve_dc_power_flow;
use std::num::nearest_u64_to_f64;

// Adds up total losses and passes. The second station has the power first, first + step, and so on.
pub fn sum_losses(r: Request) -> f64 {
    let mut grid = grids::grid_of(r.order);
    r.turns.sum(|mw, _left| {
        grid.stations[1].p_rated_mw = mw;
        losses_and_passes(grid)
    })
}

// The total losses of the grid's flow and its passes, added; 0 where it is refused.
fn losses_and_passes(grid: DcSwitchingSimulator) -> f64 {
    let Ok(solution) = solve_dc_power_flow(grid) else {
        return 0.0;
    };
    solution.total_losses_mw + nearest_u64_to_f64(solution.iterations)
}
