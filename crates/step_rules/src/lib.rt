// The rules of steps: the marks of steps done, and conditions 22 to 26 told from them and from words of receivers and waits.
#![tactic(auto)]

pub mod marks;
pub mod ready;
