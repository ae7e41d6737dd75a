// Runs a script on a logger and a service with the bench suite, and makes its transcript.
#![tactic(auto)]

pub mod requests;
pub mod run;
