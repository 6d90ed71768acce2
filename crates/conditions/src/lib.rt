// R-3, 'Load conditions in the report's order': definition 7.1 (specs/) and the theorems about it (proofs/). No code runs here.
#![tactic(auto)]

pub fn nothing() {}
