// Kinds 3 and 4: a service comes, and goes.
#![tactic(auto)]

pub mod adding;
pub mod removal;
