// Document 01's checked examples, in one table; no code.
#![tactic(auto)]
