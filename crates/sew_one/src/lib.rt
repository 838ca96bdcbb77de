// The 1-sew and the 1-unsew.
#![tactic(auto)]

pub mod one;
