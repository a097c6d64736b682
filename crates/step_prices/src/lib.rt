// The cores of steps 1 and 3 on the price tables: the offers of a message, listed, and their words.
#![tactic(auto)]

pub mod list;
pub mod receive;
pub mod send;
