// The current of a fault at sixteen times at once.
#![tactic(auto)]

mod currents;
mod sites;

pub use sites::site_currents_ka;
