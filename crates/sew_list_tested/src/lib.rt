// A list of commands behind the tests of the list and of the map.
#![tactic(auto)]

pub mod tested;
