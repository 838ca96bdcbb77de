// The walk that finds a face identifier.
#![tactic(auto)]

pub mod face;
