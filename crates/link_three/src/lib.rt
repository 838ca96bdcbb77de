// The 3-link and the 3-unlink of real darts of a map.
#![tactic(auto)]

pub mod three;
