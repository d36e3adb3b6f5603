// Theorems on evenness, waste and prices: no code.
#![tactic(auto)]
