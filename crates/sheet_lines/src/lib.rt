// One line of a sheet: a letter and fields of 12 columns, to a time step and duration, an order, a station, a cable or a breaker.
#![tactic(auto)]

mod fields;
mod line;

pub use line::{SheetLine, line_of};
