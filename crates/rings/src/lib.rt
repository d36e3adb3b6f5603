// The search of step 2b: rings of agents around those of least sum.
#![tactic(auto)]

pub mod line;
pub mod search;
