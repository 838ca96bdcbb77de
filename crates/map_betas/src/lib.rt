// The ground of the 3-map: rows of four images for each dart, the answers of every call, the lengths of its loans, and the cores of links. Its definitions and
// laws serve all `map_` crates.
#![tactic(auto)]

pub mod betas;
pub mod error;
pub mod loans;
pub mod rows;
