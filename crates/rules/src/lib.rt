// What document 01 refuses: the rules 1 to 9, and the order in which each study checks them.
#![tactic(auto)]

mod studies;

pub use studies::{
    Refusal, check_detection, check_fault, check_flow, check_operating_point, check_sweep,
    check_switching,
};
