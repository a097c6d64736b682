// Condition 30: whether a state is the one that a finished run of the job leaves, table by table. Nothing is written.
#![tactic(auto)]

pub mod marks;
pub mod prices;
pub mod state;
pub mod totals;
