// One instant's statuses: what each signal is, as the least solution of a system of equations.
#![tactic(auto)]

pub mod configuration;
pub mod equations;
pub mod fired;
pub mod solved;
pub mod status;
