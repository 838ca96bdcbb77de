// The answers of a list of commands: five numbers for each command, one behind the other in the output.
#![tactic(auto)]

pub mod answers;
