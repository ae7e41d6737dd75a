//! Writes the answers to a bench script, one line for each line of the script.
#![tactic(auto)]

pub mod answer;
pub mod lines;
