// Whole runs, advanced as long as steps are left, with all of the memory lent in each call.
use crate::grids;
use crate::requests::Request;
use crate::states::sum_state;
use fault_start::simulate_fault;
use portions::Stop;
use runs::{DcTransientResult, Run, advance};
use state_derivatives::DcTransientState;
use switching_start::simulate_switching;
use timing::MOST_STEPS;

// 64 KB.
const MEMORY: usize = 8192;

// Adds up what fault runs lead to; a refused one counts as 0.
pub fn sum_fault_runs(r: Request) -> f64 {
    let grid = grids::grid_of(r.order);
    let fault = grids::fault_at(r.inception_ms);
    let mut memory = [0.0; MEMORY];
    r.turns.sum(|_x, _left| {
        match simulate_fault(grid, fault) {
            Ok(start) => {
                let run = finished(start, &mut memory);
                sum_run(run.figures(), run.state())
            }
            Err(_) => 0.0,
        }
    })
}

// Adds up what runs lead to in which all breakers open; a refused one counts as 0.
pub fn sum_switching_runs(r: Request) -> f64 {
    let grid = grids::grid_of(r.order);
    let mut memory = [0.0; MEMORY];
    r.turns.sum(|_x, _left| {
        match simulate_switching(grid, 1, true) {
            Ok(start) => {
                let run = finished(start, &mut memory);
                sum_run(run.figures(), run.state())
            }
            Err(_) => 0.0,
        }
    })
}

// A run, advanced until no step is left, with any number of steps in a call.
fn finished<R: Run>(start: R, memory: &mut [f64; MEMORY]) -> R {
    let mut run = start;
    // No run has more steps, and a call makes at least one.
    for _call in 0..MOST_STEPS {
        let advanced = advance(run, u64::MAX, memory);
        run = advanced.run;
        if matches!(advanced.stop, Stop::Finished) {
            break;
        }
    }
    run
}

// The sum of figures and last state.
fn sum_run(figures: DcTransientResult, state: DcTransientState) -> f64 {
    sum_state(sum_figures(figures), state)
}

fn sum_figures(figures: DcTransientResult) -> f64 {
    figures.peak_fault_current_ka
        + figures.fault_clearing_time_ms
        + figures.energy_dissipated_mj
        + figures.voltage_recovery_time_ms
        + figures.max_di_dt
}
