// The map test: whether rows are a 3-map, and which image breaks the first rule where they are none.
#![tactic(auto)]

pub mod structure;
