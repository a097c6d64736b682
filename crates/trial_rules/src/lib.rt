// The trial of the floor: rounds of steps by a preference list, their definitions and laws; this crate has no code.
#![tactic(auto)]
