// An operation for any rows, flags, loans and darts.
#![tactic(auto)]

pub mod tested;
