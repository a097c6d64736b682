// The job file: its definitions and their laws; this crate has no code.
#![tactic(auto)]
