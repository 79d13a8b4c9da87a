// The printed line of an accepted instant.
#![tactic(auto)]

pub mod line;
