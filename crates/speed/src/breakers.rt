// The fastest breaker, and the refusals of a fault run. The first breaker opens after a time and the run lasts as long, so that each turn
// asks anew.
use crate::grids;
use crate::requests::Request;
use breaker_times::fastest_breaker_clearing_ms;
use grid::DcSwitchingSimulator;
use rules::check_fault;

// Adds up the fastest clearing times.
pub fn sum_of_times(r: Request) -> f64 {
    let mut grid = grids::grid_of(r.order);
    r.turns.sum(|ms, _left| {
        set_time(&mut grid, ms);
        fastest_breaker_clearing_ms(grid)
    })
}

// Counts the times at which a fault is accepted.
pub fn sum_of_accepted(r: Request) -> f64 {
    let mut grid = grids::grid_of(r.order);
    r.turns.sum(|ms, _left| {
        set_time(&mut grid, ms);
        accepted(grid, ms)
    })
}

fn set_time(grid: &mut DcSwitchingSimulator, ms: f64) {
    grid.breakers[0] = grids::breaker(0, ms);
    grid.duration_ms = ms;
}

// 1 where a fault at that time is accepted, or 0.
fn accepted(grid: DcSwitchingSimulator, ms: f64) -> f64 {
    if check_fault(grid, grids::fault_at(ms)).is_ok() {
        1.0
    } else {
        0.0
    }
}
