//! Reads a bench script: its lines, the fields of a line, and the request that a line makes.
#![tactic(auto)]

mod digits;
mod fields;
pub mod lines;
pub mod request;
pub mod words;
