// The listing of a sweep, from the published run alone; each case once and in order. There is no code in this crate.
#![tactic(auto)]
