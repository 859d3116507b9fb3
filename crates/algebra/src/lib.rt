// The algebra that the layer rests on is definitions (specs/) and theorems (proofs/); it has no code.
#![tactic(auto)]
