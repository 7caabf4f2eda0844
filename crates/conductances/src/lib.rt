// The conductance matrix of a grid.
#![tactic(auto)]

mod conductances;

pub use conductances::conductances_of;
