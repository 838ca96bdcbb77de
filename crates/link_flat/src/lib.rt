// The 1- and 2-links and unlinks.
#![tactic(auto)]

pub mod flat;
