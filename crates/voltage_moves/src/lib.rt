// How one pass of a flow moves the stations' voltages.
#![tactic(auto)]

mod moves;

pub use moves::move_voltages;
