// The settlement: what a job, a step, a run and a statement are, and the theory of demand 3; this crate has no code.
#![tactic(auto)]
