// What follows from the statuses of one instant: values, the next configuration, and why an instant is refused.
#![tactic(auto)]

pub mod combine;
pub mod fault;
pub mod kinds;
pub mod next;
pub mod react;
pub mod total;
pub mod value;
