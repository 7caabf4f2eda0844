// Every list of calls of a fault run, its start, and rule 11 both ways. There is no code in this crate.
#![tactic(auto)]
