// The test of a stored image's header.
#![tactic(auto)]

pub mod header;
