// The start of a fault run: its refusals, and the run that is kept.
#![tactic(auto)]

mod start;

pub use start::simulate_fault;
