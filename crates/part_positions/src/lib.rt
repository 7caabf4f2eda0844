// Where the first part of a grid stands that document 01 does not accept.
#![tactic(auto)]

mod positions;

pub use positions::{first_bad_breaker, first_bad_cable, first_bad_station};
