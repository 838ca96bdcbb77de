// Commands: which link, sew, unlink or unsew a number stands for. Its definitions say what a list of commands does, from the calls themselves.
#![tactic(auto)]

pub mod commands;
