// A sheet printed from a grid and an order, and that it reads back to them. There is no code in this crate.
#![tactic(auto)]
