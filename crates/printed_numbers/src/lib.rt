// Whole numbers printed right-justified in the columns of a line.
#![tactic(auto)]

mod printed;

pub use printed::put_number;
