// Laws on lists that the proofs of loops cite. There is no code in this crate.
#![tactic(auto)]
