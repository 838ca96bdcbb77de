// The writer of stored images.
#![tactic(auto)]

pub mod writer;
