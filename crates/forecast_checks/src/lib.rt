// The conditions of a forecast's two calls: 20, 21 and 34 on the tables, 22 to 26 on the request, and the late 21.
#![tactic(auto)]

pub mod refusal;
pub mod request;
pub mod tables;
