// The cores of orbits and cells.
#![tactic(auto)]

pub mod cores;
