// When the rules 3 to 8 of document 01 are broken by a grid.
#![tactic(auto)]

mod tests;

pub use tests::{
    breaker_outside, cable_outside, station_outside, time_outside, too_many_parts, too_many_steps,
};
