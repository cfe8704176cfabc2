// Answers, states and places as numbers in lent slices, for the wrappers of bridge_texts and bridge_places.
#![tactic(auto)]

pub mod answers;
pub mod states;
pub mod telling;
