// The published decoder as definitions (specs/) and what is proved of it (proofs/); the code that does its steps is crate
// `steps`.
#![tactic(auto)]
