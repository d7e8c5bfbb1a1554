#![tactic(auto)]

// What the software's definition says stands in specs/; this crate has no function.
