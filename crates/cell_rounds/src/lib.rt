// Going round the chain of a face.
#![tactic(auto)]

pub mod rounds;
