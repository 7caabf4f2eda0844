// What the column of a double holds, in whole numbers: definitions and proofs. No code.
#![tactic(auto)]
