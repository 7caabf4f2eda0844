// The start of a switching run: its refusals, and the run that is kept.
#![tactic(auto)]

mod start;

pub use start::simulate_switching;
