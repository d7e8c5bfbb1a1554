#![tactic(auto)]

// What makes a proof line sound, under proofs/; this crate has no function.
