// What a reading is answered by at the end of the input: the grid and the order, or the number and the line of a refusal.
#![tactic(auto)]

mod answers;

pub use answers::answer;
