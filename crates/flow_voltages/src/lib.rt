// The voltages of a grid in the steady state, by passes over the stations' power balance.
#![tactic(auto)]

mod balance;
mod voltages;

pub use voltages::{Found, Voltages, find_voltages, find_with_currents};
