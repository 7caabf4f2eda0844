// What document 01 says of a step in words: rates and step read from the grid, the classical formula. There is no code in this crate.
#![tactic(auto)]
