// Which parts of a grid, which faults and which sweep orders document 01 accepts.
#![tactic(auto)]

mod accepted;

pub use accepted::{check_breaker, check_cable, check_event, check_order, check_station};
