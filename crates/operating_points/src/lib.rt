// Operating points of a station that is checked first.
#![tactic(auto)]

mod answer;

pub use answer::{lcc_operating_point, vsc_operating_point};
