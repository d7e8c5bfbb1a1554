#![tactic(auto)]

// Clearing clashes and pure literals is sound, under proofs/; this crate has no function.
