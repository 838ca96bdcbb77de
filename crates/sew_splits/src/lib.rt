// The plan of a 3-unsew, written: the face split, then the splits of each pair in the order of the walk.
#![tactic(auto)]

pub mod splits;
