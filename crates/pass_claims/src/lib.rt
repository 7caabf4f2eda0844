// A flow stops in the first pass that meets the tolerance, or makes 50. There is no code in this crate.
#![tactic(auto)]
