// Visits: what the steps of a policy lead to from a dart is put behind the queue.
#![tactic(auto)]

pub mod visits;
