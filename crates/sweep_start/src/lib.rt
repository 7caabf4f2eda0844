// The start of a sweep: its refusals, the flow, and the sweep that is kept.
#![tactic(auto)]

mod start;

pub use start::start_sweep;
