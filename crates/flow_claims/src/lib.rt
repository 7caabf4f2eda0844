// What a caller learns of a flow's answer: its passes, and zeros past the counts. There is no code in this crate.
#![tactic(auto)]
