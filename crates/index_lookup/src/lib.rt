// The look-up of offers by number, in an index of their places sorted by number.
#![tactic(auto)]

pub mod look;
