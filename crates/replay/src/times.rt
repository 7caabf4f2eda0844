// Job 12: what a grid says of times. The Rust has these numbers inside its runs; here they can be asked for.
use crate::bench::Bench;
use crate::grids;
use crate::numbers::Ended;
use crate::writer::Writer;
use grid::DcSwitchingSimulator;

// A grid, which is not refused. The answer: steps, counted to one past the limit, recording interval, recorded steps, length of
// a record; time step and duration in milliseconds and the fastest clearing time; then each breaker's clearing time.
pub fn answer(b: &mut Bench) -> Result<(), Ended> {
    let grid = grids::read_grid(&mut b.reader)?;
    append_steps(&mut b.writer, timing::total_steps(grid))?;
    b.writer.append(timing::record_length(grid) as u64)?;
    append_times(&mut b.writer, grid)?;
    append_clearing_times(&mut b.writer, grid)
}

// Steps, recording interval, recorded steps; time step and duration in milliseconds: what a run uses of the grid's two times.
pub fn append_run_times(w: &mut Writer, grid: DcSwitchingSimulator) -> Result<(), Ended> {
    append_steps(w, timing::total_steps(grid))?;
    append_times(w, grid)
}

fn append_steps(w: &mut Writer, steps: u64) -> Result<(), Ended> {
    w.append_all(&[
        steps,
        timing::record_interval(steps),
        timing::recorded_steps(steps),
    ])
}

fn append_times(w: &mut Writer, grid: DcSwitchingSimulator) -> Result<(), Ended> {
    w.append_all(&[timing::time_step_ms(grid), timing::duration_ms(grid)])
}

// The fastest breaker's, then each one's, no more of them than there is room for.
fn append_clearing_times(w: &mut Writer, grid: DcSwitchingSimulator) -> Result<(), Ended> {
    w.append(breaker_times::fastest_breaker_clearing_ms(grid))?;
    for breaker in grid.present_breakers() {
        w.append(breaker_times::breaker_clearing_time_ms(breaker.breaker_type))?;
    }
    Ok(())
}
