// One step of a fault run: the body of the loop in 000's simulate_fault.
#![tactic(auto)]

mod fault;

pub use fault::fault_step;
pub use fault_current::fault_current_ka;
