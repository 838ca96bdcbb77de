// Cell lists: the calls. Ports the lists of dim3/basic_ops.rs.
#![tactic(auto)]

pub mod basic_ops;
pub mod listings;
