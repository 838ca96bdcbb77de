// The face identifier, as the Rust walks it. Ports `face_id_tx` of dim3/basic_ops.rs. Its definitions and laws serve `cell_face_lists` too.
#![tactic(auto)]

pub mod walk;
