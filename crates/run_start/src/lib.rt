// What fault runs and switching runs begin with, and the time of their steps.
#![tactic(auto)]

mod start;

pub use start::{breakers_all, rated_voltages, step_time_ms};
