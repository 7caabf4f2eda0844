// What document 01.9 says of fields in words, and that a printed number is read back: definitions and proofs. No code.
#![tactic(auto)]
