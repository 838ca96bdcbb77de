// The three unsews as calls.
#![tactic(auto)]

pub mod calls;
