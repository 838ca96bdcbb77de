// The reader of stored images.
#![tactic(auto)]

pub mod reader;
