// Steps from dart to dart, orbits and cells: the policies, and all definitions and laws of the search.
#![tactic(auto)]

pub mod cells;
pub mod policy;
