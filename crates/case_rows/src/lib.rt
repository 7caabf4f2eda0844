// The row of a case, written behind the rows of a call.
#![tactic(auto)]

mod rows;

pub use rows::Swept;
