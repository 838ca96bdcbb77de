// The splits of one pair of darts that a 3-unsew parts. Its definitions and laws serve the whole 3-unsew.
#![tactic(auto)]

pub mod pairs;
