// A session: what its two ends agreed on, its keys, and how far each plane has come.
#![tactic(auto)]

pub mod counters;
pub mod laws;
pub mod session;
