// What a job's tables must be before anything is done with them: the refusals 20, 21 and 9; and 20 and 21 on a state's.
#![tactic(auto)]

pub mod checks;
