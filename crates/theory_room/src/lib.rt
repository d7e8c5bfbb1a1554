#![tactic(auto)]

// What stands fits the workspace and the limits of reading back, under proofs/; this crate has no function.
