// The sweep: every fault site of a grid tried, in portions on lent memory, and the cases listed that the breakers do not meet.
#![tactic(auto)]

mod advance;
mod sweep;

pub use case_steps::OpenCase;
pub use sweep::{AdvancedSweep, Sweep};
