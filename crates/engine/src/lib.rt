// The engine: instants one after the other.
#![tactic(auto)]

pub mod calls;
pub mod cases;
pub mod publish;
pub mod runner;
