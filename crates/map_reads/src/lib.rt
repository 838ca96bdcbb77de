// Reads and free tests.
#![tactic(auto)]

pub mod basic_ops;
