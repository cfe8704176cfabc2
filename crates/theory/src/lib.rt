// The theory of divisions: its definitions stand in specs/, its laws in proofs/. There is no code.
#![tactic(auto)]
