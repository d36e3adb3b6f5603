// The text of the programs: words and numbers, and the lines made of them. In a lent buffer they can't fail; to a writer, as the programs print them,
// they can.
#![tactic(auto)]

pub mod lines;
pub mod moves;
pub mod words;
