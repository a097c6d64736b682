// The blocks of a file: checked one by one, and a table filled with one field of their records; then all that makes a file accepted.
#![tactic(auto)]

pub mod by_place;
pub mod codes;
pub mod file;
pub mod fill;
pub mod job_file;
pub mod kinds;
mod look;
pub mod place;
pub mod plan;
pub mod records;
pub mod shape;
pub mod spares;
pub mod standing;
pub mod tables;
mod twice;
