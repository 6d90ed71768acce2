// The engine's definitions (specs/) and the theorems about them (proofs/). No code runs here.
#![tactic(auto)]

pub fn nothing() {}
