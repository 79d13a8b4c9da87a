// What a chart can do, known before its first instant: the states and signals that it can reach.
#![tactic(auto)]

pub mod reach;
mod reached;
pub mod stateset;
