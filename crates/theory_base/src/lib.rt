#![tactic(auto)]

// Laws of the definition's words, under proofs/; this crate has no function.
