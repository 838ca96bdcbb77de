// The six links and unlinks of real darts of a map, by their names: what a list of commands runs.
#![tactic(auto)]

pub mod links;
