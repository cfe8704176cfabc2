// Thin wrappers of the front door's calls on texts, with numbers and slices alone but for the watch's lent state, for tests and benchmarks.
// A symbol is bridge_, the module of the front door, and the call. What a call answers is told in a lent slice, a refusal by its number and
// its values, and the reply is how many numbers were told; where the slice has fewer than 8 places, or a state is none, nothing is called.
// Each export is a function of its own, since C has neither generics nor Result.
#![tactic(auto)]

pub mod pages;
pub mod pending;
pub mod pieces;
pub mod pieces_to_units;
pub mod read;
pub mod room;
pub mod unit_pieces;
pub mod watch;
pub mod write;
