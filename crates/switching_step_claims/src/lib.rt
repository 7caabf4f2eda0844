// What is worked out once changes nothing. There is no code in this crate.
#![tactic(auto)]
