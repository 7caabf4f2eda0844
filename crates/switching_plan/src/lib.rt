// What a switching run works out once, and the initial values of its variables.
#![tactic(auto)]

mod plan;
mod variables;

pub use plan::{SwitchingPlan, first_switching_variables, switching_plan};
pub use variables::SwitchingVariables;
