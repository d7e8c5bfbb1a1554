#![tactic(auto)]

// What the code may rely on along a run: bounds on its log, its variables and what stands. The statements stand in specs/, their proofs in proofs/; this crate has no function.
