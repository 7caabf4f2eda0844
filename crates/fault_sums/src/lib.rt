// The currents of a fault over the steps in which it lasts: the greatest, their heat, and the last. Sixteen steps are worked out at a time.
#![tactic(auto)]

mod steps;

pub use steps::{SiteSums, Sums, fault_sums, site_sums};
