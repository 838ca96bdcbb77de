// An answer as it crosses to C.
#![tactic(auto)]

pub mod flat;
