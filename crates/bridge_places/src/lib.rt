// Thin wrappers of the front door's calls on places, phrases and indexes, with numbers and slices alone, for tests and benchmarks.
// A symbol is bridge_, the module of the front door, and the call. What a call answers is told in a lent slice, a refusal by its number and
// its values, and the reply is how many numbers were told; where the slice has fewer than 8 places, or a state is none, nothing is called.
// Each export is a function of its own, since C has neither generics nor Result.
#![tactic(auto)]

pub mod build;
pub mod lookup;
pub mod phrases;
