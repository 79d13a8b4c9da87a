// Systems of equations, worklists, and one solver that ends in the least solution whatever the order of work.
#![tactic(auto)]

pub mod arrival;
pub mod latest;
pub mod lowest;
pub mod marks;
mod ring;
pub mod solver;
pub mod system;
mod table;
pub mod worklist;
