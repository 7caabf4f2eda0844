// What is kept of an open case is what the published run has. There is no code in this crate.
#![tactic(auto)]
