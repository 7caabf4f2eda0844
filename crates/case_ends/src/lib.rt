// What a case of a sweep leads to at its end, without its steps made one by one.
#![tactic(auto)]

mod ends;

pub use ends::{SiteEnds, case_end, site_ends};
