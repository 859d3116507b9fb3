// Lists are how contracts see slices; this crate holds their definitions (specs/) and laws (proofs/), and no code.
#![tactic(auto)]
