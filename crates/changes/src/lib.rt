// Searches and writes that the kinds share: check first, write after.
#![tactic(auto)]

pub mod left;
pub mod lists;
pub mod own;
pub mod service;
