// The table of first chores: for each agent and each trait the first chore that it owns with that trait.
#![tactic(auto)]

pub mod dearest;
mod rows;
pub mod table;
pub mod traits;
