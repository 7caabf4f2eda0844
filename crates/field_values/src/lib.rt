// The number in the 12 columns of a field, as a whole number and as the nearest double.
#![tactic(auto)]

mod fields;
mod value;

pub use fields::{real_at, whole_at};
