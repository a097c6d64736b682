// The guarantees: the demands as statements about the public calls' definitions; this crate has no code.
#![tactic(auto)]
