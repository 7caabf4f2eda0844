// What the model of a grid over time needs of the grid and of a fault, worked out once: ends, R, L, C, and what a fault drains.
#![tactic(auto)]

mod capacitance;
mod network;

pub use capacitance::station_capacitance_uf;
pub use network::{Drain, Network, drain_of, network_of, no_drain};
