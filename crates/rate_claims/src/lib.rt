// The rates are the grid's, and the drain stands at both ends. There is no code in this crate.
#![tactic(auto)]
