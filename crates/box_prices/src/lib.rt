// What a box can learn of prices: definitions, laws and cases of 02 §12; this crate has no code.
#![tactic(auto)]
