// Which steps of a run its fault lasts in.
#![tactic(auto)]

mod steps;

pub use steps::{FaultTimes, Window, fault_window};
