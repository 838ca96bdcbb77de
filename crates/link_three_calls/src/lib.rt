// The 3-link and the 3-unlink as calls.
#![tactic(auto)]

pub mod three;
