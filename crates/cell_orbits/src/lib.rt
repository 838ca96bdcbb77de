// The orbit calls.
#![tactic(auto)]

pub mod orbits;
