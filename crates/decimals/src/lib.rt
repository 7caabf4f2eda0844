// A double printed with six places in 21 columns.
#![tactic(auto)]

mod column;
mod millionths;

pub use column::decimal_column;
