// Two session stores: the logger's, with one place of its own, and the service's, a table of places that the caller supplies.
#![tactic(auto)]

pub mod one_place;
pub mod place;
mod places;
pub mod size;
pub mod table;
