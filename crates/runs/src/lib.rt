// Runs: what a fault run and a switching run share. The advance of a run and its figures, blank values, and in specs/ the claim about every list of calls.
#![tactic(auto)]

mod blank;
mod result;
mod stepping;

pub use blank::{blank_grid, blank_state};
pub use result::DcTransientResult;
pub use stepping::{Advanced, Run, advance};
