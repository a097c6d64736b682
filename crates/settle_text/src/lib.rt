// Bytes and numbers put into a buffer, and the lines that settle prints.
#![tactic(auto)]

pub mod lines;
pub mod numbers;
