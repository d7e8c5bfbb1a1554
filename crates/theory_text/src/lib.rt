#![tactic(auto)]

// What the texts say when they are read back, under proofs/; this crate has no function.
