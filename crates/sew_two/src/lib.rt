// The 2-sew and the 2-unsew.
#![tactic(auto)]

pub mod two;
