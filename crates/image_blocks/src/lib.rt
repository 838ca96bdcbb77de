// Lays the blocks of an image of form 1 that every image has: header, rows and flags. The definition of an image and its laws stand here too.
#![tactic(auto)]

pub mod blocks;
