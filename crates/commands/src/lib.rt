// The commands of control messages, and what a request asks for.
#![tactic(auto)]

pub mod command;
pub mod request;
