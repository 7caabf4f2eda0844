// The cases of a sweep: which fault each of them has.
#![tactic(auto)]

mod cases;

pub use cases::{
    CasePlace, FAULT_TYPES, MOST_TENTHS, case_count, case_place, fault_at, fault_type, tenth_count,
    type_number, type_of,
};
