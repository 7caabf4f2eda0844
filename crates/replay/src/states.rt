// States of a grid as the jobs give them, and job 6, which looks at two.
use crate::bench::Bench;
use crate::grids;
use crate::numbers::Ended;
use crate::reader::Reader;
use crate::writer::Writer;
use detection::detect_fault;
use grid::{DcSwitchingSimulator, MOST_BREAKERS, MOST_CABLES, MOST_STATIONS};
use state_derivatives::DcTransientState;

// The voltages and currents of a state.
const ENTRIES: usize = MOST_STATIONS + MOST_CABLES;

// Job 6: a grid and two states of it, the later first. The answer is a refusal, and 1 or 0 if it is 0.
pub fn detection(b: &mut Bench) -> Result<(), Ended> {
    let grid = grids::read_grid(&mut b.reader)?;
    let later = read_timed_state(&mut b.reader, grid)?;
    let earlier = read_timed_state(&mut b.reader, grid)?;
    match detect_fault(grid, later, earlier) {
        Ok(detected) => {
            b.writer.append(0u64)?;
            b.writer.append(detected)
        }
        Err(refusal) => b.writer.append(refusal.number()),
    }
}

// The time, then the state.
fn read_timed_state(
    reader: &mut Reader,
    grid: DcSwitchingSimulator,
) -> Result<DcTransientState, Ended> {
    let time_ms = reader.next_double()?;
    read_state(reader, grid, time_ms)
}

// Station voltages, then cable currents, as many as the counts, but no more than there is room for. What a job does not give is at rest.
pub fn read_state(
    reader: &mut Reader,
    grid: DcSwitchingSimulator,
    time_ms: f64,
) -> Result<DcTransientState, Ended> {
    let mut y = [0.0; ENTRIES];
    let n = MOST_STATIONS.min(grid.n_stations) + MOST_CABLES.min(grid.n_cables);
    reader.fill(&mut y[..n])?;
    Ok(DcTransientState {
        time_ms,
        y,
        station_currents_ka: [0.0; MOST_STATIONS],
        fault_current_ka: 0.0,
        breaker_states: [true; MOST_BREAKERS],
    })
}

// Station voltages, station currents and cable currents, as many as the counts, but no more than there is room for.
pub fn append_state(
    w: &mut Writer,
    grid: DcSwitchingSimulator,
    state: DcTransientState,
) -> Result<(), Ended> {
    let n = MOST_STATIONS.min(grid.n_stations);
    let m = MOST_CABLES.min(grid.n_cables);
    w.append_all(&state.y[..n])?;
    w.append_all(&state.station_currents_ka[..n])?;
    w.append_all(&state.y[n..n + m])
}
