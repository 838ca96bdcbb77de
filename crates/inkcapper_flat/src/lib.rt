// The calls as C has them, on numbers and slices; `inkcapper_c` exports them with plain C linkage, and programs that run what C runs call them here. Each makes
// the library's call and hands on its answer: the number is returned, the three values are written (0 where absent).
// Stays: links, identifiers, orbits and lists differ in a constant each. C has them by these names, and no macro may write a function.
#![tactic(auto)]

pub mod commands;
pub mod ids;
pub mod images;
pub mod links;
pub mod lists;
pub mod orbits;
pub mod reads;
pub mod sews;
