// Which of several counts of one bag stands: the definitions and their laws; this crate has no code.
#![tactic(auto)]
