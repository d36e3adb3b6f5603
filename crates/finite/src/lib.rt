// Sums, searches and lists over the numbers below a bound: definitions and laws, no code.
#![tactic(auto)]
