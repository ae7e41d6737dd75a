// One end: a session store and a cipher suite, and the calls on them. One core serves both roles, over any store and any suite.
#![tactic(auto)]

pub mod end;
pub mod key_calls;
pub mod laws;
pub mod message_calls;
pub mod order;
pub mod session_calls;
