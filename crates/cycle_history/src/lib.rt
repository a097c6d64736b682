// The store of thirteen cycles: what it holds, its refusals, and that its sums are those of the history; this crate has no code.
#![tactic(auto)]
