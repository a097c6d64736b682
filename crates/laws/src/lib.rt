// Laws of sums, searches, tables, signed numbers and masks: definitions and lemmas only; this crate has no code.
#![tactic(auto)]
