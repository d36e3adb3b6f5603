// Parts of Algorithm 1: sets of agents, what is read off sums and groups, the choices of 2a, the price cut.
#![tactic(auto)]

pub mod choices;
pub mod cuts;
pub mod sums;
pub mod words;
