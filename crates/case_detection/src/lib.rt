// Whether a fault is detected within steps of a case, worked out without the rest of the case.
#![tactic(auto)]

mod detecting;

pub use detecting::is_detected_within;
