// What the calls promise to C: definitions and laws, no code.
#![tactic(auto)]
