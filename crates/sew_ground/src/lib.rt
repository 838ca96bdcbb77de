// What sews and unsews share: the cells at a dart's ends, entries that are there or not, and their settling in the plan. Its definitions and laws serve the 1-
// and 2-sews.
#![tactic(auto)]

pub mod items;
pub mod settle;
pub mod sides;
