// The second leg of a 3-link's or a 3-unlink's walk.
#![tactic(auto)]

pub mod back;
