// What an advance of a sweep does with one case.
#![tactic(auto)]

mod cases;

pub use cases::{Common, common_of, make_steps, open_case, plan_at, steps_left_open};
