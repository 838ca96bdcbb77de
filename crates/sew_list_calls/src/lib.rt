// A list of links, sews, unlinks and unsews in one call.
#![tactic(auto)]

pub mod commands;
