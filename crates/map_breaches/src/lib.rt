// What of a dart breaks a rule of a map: an image, or that it is unused and linked.
#![tactic(auto)]

pub mod breaches;
pub mod free;
