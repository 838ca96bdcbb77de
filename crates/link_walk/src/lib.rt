// The walk along two faces that 3-links and 3-unlinks make. Its definitions and laws serve all `link_` crates.
#![tactic(auto)]

pub mod pair;
pub mod step;
pub mod walk;
