// Of each study: it is refused by the first rule of its order that is broken, and what an accepted one has. There is no code in this crate.
#![tactic(auto)]
