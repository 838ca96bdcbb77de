// The points of an image: tested, counted, and laid as records.
#![tactic(auto)]

pub mod points;
