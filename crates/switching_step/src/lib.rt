// One step of a switching run: the body of the loop in 000's simulate_switching.
#![tactic(auto)]

mod switching;

pub use switching::switching_step;
