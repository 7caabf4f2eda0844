// What a fault run works out once, the initial values of its variables, and its steps that change no array.
#![tactic(auto)]

mod plan;
mod quiet;
mod variables;

pub use plan::{FaultConstants, FaultPlan, fault_constants, fault_plan, first_fault_variables};
pub use quiet::{quiet_step, rests, waits};
pub use variables::{FaultVariables, fresh_variables};
