// What the matrix of conductances is, entry by entry. There is no code in this crate.
#![tactic(auto)]
