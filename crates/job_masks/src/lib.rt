// Need words and sharer words, one bit for each box, made of the tables of a job; and the steps that they tell.
#![tactic(auto)]

pub mod due;
pub mod masks;
