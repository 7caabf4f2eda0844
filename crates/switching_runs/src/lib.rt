// Switching runs: one breaker operation, run in portions on lent memory.
#![tactic(auto)]

mod switching_run;

pub use runs::{Advanced, DcTransientResult};
pub use switching_plan::SwitchingVariables;
pub use switching_run::SwitchingRun;
