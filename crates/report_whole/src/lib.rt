// The report: what an image of at most 1,024 darts holds, as text in a lent buffer.
#![tactic(auto)]

pub mod report;
