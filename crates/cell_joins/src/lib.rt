// What joins the queue of a list: a dart, an edge by beta 2 and beta 3 in turn, a volume by beta 1 and beta 2.
#![tactic(auto)]

pub mod edges;
pub mod meet;
pub mod volumes;
