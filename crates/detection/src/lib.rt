// Whether a fault shows between two states of a grid.
#![tactic(auto)]

mod detect;

pub use detect::{Seen, detect_fault, detects, shows_fault};
