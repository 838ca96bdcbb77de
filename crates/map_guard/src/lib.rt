// What refuses a call before its work: the guard of every call on a map.
#![tactic(auto)]

pub mod guard;
