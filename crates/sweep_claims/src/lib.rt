// Demand 3 of the sweep, its start, and rule 11 both ways. There is no code in this crate.
#![tactic(auto)]
