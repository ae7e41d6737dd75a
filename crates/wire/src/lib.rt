// The octets of a message that stay clear: first octet, counter and Session ID.
#![tactic(auto)]

pub mod front;
pub mod hex;
pub mod id;
pub mod laws;
pub mod parties;
