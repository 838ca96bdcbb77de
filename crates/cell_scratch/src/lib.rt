// Scratch of a search: marks and queue places set back to 0, and one step from a dart into the queue.
#![tactic(auto)]

pub mod scratch;
pub mod steps;
