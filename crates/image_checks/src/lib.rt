// The tests of a stored image's flags and vertex records.
#![tactic(auto)]

pub mod blocks;
