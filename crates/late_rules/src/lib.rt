// Late bags and withdrawn ones (02 §7): the definitions and their laws; this crate has no code.
#![tactic(auto)]
