// What `settle` prints for a job file, and what an accepted file gives: definitions and laws; of code whole cents alone.
#![tactic(auto)]

pub mod cents;
