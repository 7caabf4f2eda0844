// For accepted input E's argument is never positive. There is no code in this crate.
#![tactic(auto)]
