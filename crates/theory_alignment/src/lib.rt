#![tactic(auto)]

// Alignment's notions and its computation agree, under proofs/; this crate has no function.
