// The outcomes of the cases that a call of a sweep closes.
#![tactic(auto)]

mod cable;
mod closed;

pub use cable::{CableEnds, ends_held, no_cable_ends};
pub use closed::{CaseToClose, closed_outcome};
