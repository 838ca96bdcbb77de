// A list of commands, made one after another on a map and clean scratch.
#![tactic(auto)]

pub mod lists;
