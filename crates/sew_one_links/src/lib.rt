// The links and unlinks of a 1-sew and a 1-unsew, and the way back from each.
#![tactic(auto)]

pub mod one_links;
