// What two ends agree on for a message, and where its parts then stand.
#![tactic(auto)]

pub mod format;
pub mod layout;
