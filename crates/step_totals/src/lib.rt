// Steps 2 and 3 on packed working totals.
#![tactic(auto)]

pub mod row;
mod walk;
