// A number in the 12 columns of a field, as document 01.9 has it.
#![tactic(auto)]

mod fields;
mod scan;

pub use fields::{Decimal, field_at};
