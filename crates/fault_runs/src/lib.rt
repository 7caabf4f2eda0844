// Fault runs: one fault, run in portions on lent memory.
#![tactic(auto)]

mod fault_run;

pub use fault_plan::FaultVariables;
pub use fault_run::{FaultRun, FaultSteps};
pub use runs::{Advanced, DcTransientResult};
