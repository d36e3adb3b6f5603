// Theorems on quotas: no code.
#![tactic(auto)]
