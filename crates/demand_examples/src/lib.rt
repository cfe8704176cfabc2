// The marked examples, as one theorem about the definitions. There is no code.
#![tactic(auto)]
