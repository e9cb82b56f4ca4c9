// Theorems over the definitions of the crates below. No code.
#![tactic(auto)]
