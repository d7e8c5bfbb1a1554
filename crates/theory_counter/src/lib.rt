#![tactic(auto)]

// The counter form of a choice is sound, under proofs/; this crate has no function.
