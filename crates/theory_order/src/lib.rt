#![tactic(auto)]

// The order form of a choice is sound, under proofs/; this crate has no function.
