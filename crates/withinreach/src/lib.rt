// What is within reach is always read: definitions (specs/) and theorems (proofs/) over the published decoder; it has no code.
#![tactic(auto)]
