// The sews and unsews as one operation on real darts of a map.
#![tactic(auto)]

pub mod operations;
