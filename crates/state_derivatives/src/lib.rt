// The state of a grid at a time, and how fast its voltages and currents change.
#![tactic(auto)]

mod derivatives;
mod state;

pub use derivatives::{net_currents, state_derivatives};
pub use state::{DcTransientState, StageSlopes, StageState};
