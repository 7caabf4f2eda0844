// What is worked out once, and steps that touch no array, change nothing; what stays after clearing. There is no code in this crate.
#![tactic(auto)]
