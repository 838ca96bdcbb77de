// The 3-unsew: a 3-unlink, with the splits of cells that it brings about.
#![tactic(auto)]

pub mod three;
