// The texts that ask for a trace: what they say (specs/), and that reading one finds just that (proofs/); the code that reads is
// crate `request`.
#![tactic(auto)]
