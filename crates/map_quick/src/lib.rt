// The quick test of one dart of a map.
#![tactic(auto)]

pub mod quick;
