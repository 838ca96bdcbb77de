// What the list of faces asks of each dart.
#![tactic(auto)]

pub mod own;
