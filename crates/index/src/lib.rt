// The index of offers: their places sorted by number. Offers that share a number are neighbours, and one is found by its top digit and by halving.
// By the same sort, counts of bags.
#![tactic(auto)]

pub mod bags;
pub mod build;
pub mod sort;
pub mod tops;

pub use index_lookup::look;
