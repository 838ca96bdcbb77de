// The search, breadth first: the flood.
#![tactic(auto)]

pub mod search;
