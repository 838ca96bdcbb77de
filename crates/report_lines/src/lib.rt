// The lines of the report, as text in a lent buffer. Each function that writes answers the place behind what it wrote. Its definitions and laws serve
// `report_map` and `report_whole` too.
#![tactic(auto)]

pub mod lines;
