// The library's functions in loops, for a program in Rust to time and to compare. Requests are read from standard input until it ends; the
// answer to each, a double by its bits, is written before the next is read.
#![tactic(auto)]

mod breakers;
mod flows;
mod grids;
mod requests;
mod states;
mod values;
mod whole_runs;

use fault_circuit::fault_circuit;
use fault_current::fault_current_ka;
use requests::{Request, Work};
use std::io;

// A loop has to end, and no input has more requests than this.
const REQUESTS: u64 = u64::MAX;

// Ends with the input, or once an answer cannot be written.
fn main(rt: HostRuntime) {
    for _request in 0..REQUESTS {
        if answer_next(&rt).is_err() {
            break;
        }
    }
}

// Reads a request and answers it, or says why it could not.
fn answer_next(rt: &(impl Input + Print)) -> io::Result<()> {
    let request = requests::read(rt)?;
    let bits = float64::to_bits(answer(request));
    println!(rt; "{bits}")
}

// A request of no work that there is gets 0.
fn answer(r: Request) -> f64 {
    match r.work {
        Some(work) => sum(work, r),
        None => 0.0,
    }
}

// Adds up what the turns of a work give.
fn sum(work: Work, r: Request) -> f64 {
    match work {
        Work::SquareRoot => r.turns.sum(|x, _left| square_root::sqrt(x)),
        Work::Exponential => r.turns.sum(|x, _left| elementary::exp(x)),
        Work::Sine => r.turns.sum(|x, _left| elementary::sin(x)),
        Work::Cosine => r.turns.sum(|x, _left| elementary::cos(x)),
        Work::LccPoint => r.turns.sum(|x, _left| values::lcc_value(x)),
        Work::VscPoint => r.turns.sum(values::vsc_value),
        Work::FaultCurrent => sum_currents(r),
        Work::FastestBreaker => breakers::sum_of_times(r),
        Work::FaultRefusal => breakers::sum_of_accepted(r),
        Work::Flow => flows::sum_losses(r),
        Work::Steps => states::sum_after_steps(r),
        Work::FaultRun => whole_runs::sum_fault_runs(r),
        Work::SwitchingRun => whole_runs::sum_switching_runs(r),
        Work::Decimals => r.turns.sum(|x, _left| values::last_byte(x)),
    }
}

// As in a run, what the current of a fault needs is worked out once.
fn sum_currents(r: Request) -> f64 {
    let circuit = fault_circuit(grids::grid_of(r.order), grids::fault_at(r.inception_ms));
    r.turns.sum(|x, _left| fault_current_ka(circuit, x))
}
