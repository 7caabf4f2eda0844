// The order of the lines of a sheet: one T, one O, then S, C, B.
#![tactic(auto)]

mod order;

pub use order::{LineFault, check_line, place_of};
