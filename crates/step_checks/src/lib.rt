// What a step would leave is in range, told before anything is written; and what is asked of a request and of the tables of a state.
#![tactic(auto)]

pub mod finish;
pub mod request;
pub mod state;
