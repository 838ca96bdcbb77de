// The 1- and the 2-sew as calls.
#![tactic(auto)]

pub mod calls;
