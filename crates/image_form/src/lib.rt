// The stored image, form 1: its definitions, and where its blocks stand.
#![tactic(auto)]

pub mod form;
