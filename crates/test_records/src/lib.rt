// The records that are replayed, apart from the calls: what they say, what is lent by them and compared with them, and what is printed at the end.
#![tactic(auto)]

pub mod compared;
pub mod loans;
pub mod records;
pub mod report;
