// The identifier and the list of each class of cells: the cores.
#![tactic(auto)]

pub mod enumerators;
pub mod identifiers;
