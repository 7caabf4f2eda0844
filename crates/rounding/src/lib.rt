// How far a fraction of whole numbers lies from the double that it is rounded to, and that this double is the nearest: definitions and proofs. No code.
#![tactic(auto)]
