// The list of faces. Ports `iter_faces` of dim3/basic_ops.rs.
#![tactic(auto)]

pub mod list;
