// The RLC circuit that a fault closes.
#![tactic(auto)]

mod circuit;
mod parameters;

pub use circuit::{FaultCircuit, Response, fault_circuit};
pub use parameters::{RlcParameters, fault_rlc_params};
