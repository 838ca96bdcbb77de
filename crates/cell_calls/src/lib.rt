// Identifiers: the calls. Ports the identifiers of dim3/basic_ops.rs.
#![tactic(auto)]

pub mod basic_ops;
