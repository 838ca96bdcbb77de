// One command of a list, on a map and clean scratch.
#![tactic(auto)]

pub mod turns;
