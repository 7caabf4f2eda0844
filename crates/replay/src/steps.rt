// Job 13: one step of a grid's state. The Rust makes it inside its runs; here it can be asked for.
use crate::bench::Bench;
use crate::numbers::Ended;
use crate::{grids, states};
use grid::{DcFaultEvent, DcSwitchingSimulator};
use network::Drain;

// A grid, a fault, 1 if it is handed to the step, the step's length in seconds, and a state. The answer is a fault run's refusal, and
// if it is 0 the new station voltages, station currents and cable currents.
pub fn answer(b: &mut Bench) -> Result<(), Ended> {
    let grid = grids::read_grid(&mut b.reader)?;
    let fault = grids::read_fault(&mut b.reader)?;
    let handed = b.reader.next()?;
    let dt_s = b.reader.next_double()?;
    let state = states::read_state(&mut b.reader, grid, 0.0)?;
    if let Err(refusal) = rules::check_fault(grid, fault) {
        return b.writer.append(refusal.number());
    }
    b.writer.append(0u64)?;
    let network = network::network_of(grid);
    let next = transient::rk4_step(network, drain_of(handed, grid, fault), state, dt_s);
    states::append_state(&mut b.writer, grid, next)
}

// The fault's, where it is handed over.
fn drain_of(handed: u64, grid: DcSwitchingSimulator, fault: DcFaultEvent) -> Drain {
    if handed == 1 {
        return network::drain_of(grid, fault);
    }
    network::no_drain()
}
