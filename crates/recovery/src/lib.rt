// How the voltages recover after clearing, and when they have.
#![tactic(auto)]

mod recovery;

pub use recovery::{all_recovered, none_below, recover_voltages};
