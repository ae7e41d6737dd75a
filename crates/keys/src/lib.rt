// The keys of a session: seven slots, and the key that it sends with.
#![tactic(auto)]

pub mod id;
pub mod keys;
pub mod laws;
pub mod record;
