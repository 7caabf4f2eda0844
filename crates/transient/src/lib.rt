// The state of a grid over time: one step of classical Runge-Kutta.
#![tactic(auto)]

mod rk4;

pub use rk4::{moved_numbers, rk4_step};
