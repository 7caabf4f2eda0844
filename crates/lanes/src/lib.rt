// E and S of sixteen numbers at a time: lane j of the answer is E (S) of lane j, bit for bit what `exp` (`sin`) returns for it.
#![tactic(auto)]

mod exponential;
mod squares;
mod wave;

pub use exponential::exp_lanes;
pub use wave::sin_lanes;

// How many numbers are worked out at a time.
pub const LANES: usize = 16;
