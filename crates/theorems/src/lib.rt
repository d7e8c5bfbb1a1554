#![tactic(auto)]

// What is promised of the definition stands in specs/, its proofs in proofs/; this crate has no function.
