// The steady state of a grid: its voltages, then operating points and losses at them.
#![tactic(auto)]

mod flow;
mod solution;

pub use flow::{DcGridSolution, no_solution, solve_dc_power_flow};
