// Two ways to use a cipher of 16-octet blocks: CMAC for a tag, counter mode for a keystream.
#![tactic(auto)]

pub mod block;
pub mod cmac;
pub mod counter;
