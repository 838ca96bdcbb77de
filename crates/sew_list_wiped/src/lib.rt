// A list of commands on a map, with scratch of any content.
#![tactic(auto)]

pub mod wiped;
