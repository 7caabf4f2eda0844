// How fast the breakers of a grid clear a fault.
#![tactic(auto)]

mod breakers;

pub use breakers::{breaker_clearing_time_ms, fastest_breaker_clearing_ms};
