// What a forecast's steps and its fresh state do to the tables.
#![tactic(auto)]

pub mod fresh;
pub mod messages;
pub mod own;
