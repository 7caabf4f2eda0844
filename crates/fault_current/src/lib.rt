// The current of a fault over time.
#![tactic(auto)]

mod current;

pub use current::{decayed_current_ka, fault_current_ka};
