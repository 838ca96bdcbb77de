// An edge without scratch: its darts stand in one round or one chain of beta 2 and beta 3 in turn.
#![tactic(auto)]

pub mod edges;
