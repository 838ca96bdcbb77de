// What a 3-unsew has to know before it writes.
#![tactic(auto)]

pub mod tallies;
