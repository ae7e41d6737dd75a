// Where an end keeps its sessions: the interface that every session store meets.
#![tactic(auto)]

pub mod laws;
pub mod store;
