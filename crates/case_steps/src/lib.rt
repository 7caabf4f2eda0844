// The steps of one case of a sweep, and what is kept of it between them.
#![tactic(auto)]

mod open_case;
mod steps;

pub use fault_plan::FaultVariables;
pub use open_case::{OpenCase, case_outcome, first_open_case, no_open_case};
pub use steps::case_steps;
