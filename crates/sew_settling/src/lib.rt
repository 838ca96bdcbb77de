// The plan of a 3-unsew: counted, then written or refused.
#![tactic(auto)]

pub mod settling;
