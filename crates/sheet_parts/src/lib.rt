// A grid with a station, a cable or a breaker more, and the number of a line more.
#![tactic(auto)]

mod parts;

pub use parts::{MOST_LINES, counted_on, with_breaker, with_cable, with_station};
