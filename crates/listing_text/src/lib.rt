// The lines that the program prints, as text: a row, the end, and a refusal.
#![tactic(auto)]

mod lines;

pub use lines::{end_text, refusal_text, row_text};
