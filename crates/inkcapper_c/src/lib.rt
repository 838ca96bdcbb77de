// The calls as C has them: each hands on to the function of `inkcapper_flat` that has its name, and says what that says. Only what is here is exported.
#![tactic(auto)]

pub mod commands;
pub mod ids;
pub mod images;
pub mod links;
pub mod lists;
pub mod orbits;
pub mod reads;
pub mod sews;
