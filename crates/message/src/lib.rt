// A message sealed and opened in the caller's buffer, with any suite.
#![tactic(auto)]

mod cipher;
pub mod open;
pub mod seal;
