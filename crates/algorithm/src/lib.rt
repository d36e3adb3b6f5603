// Theorems about Algorithm 1: no code.
#![tactic(auto)]
