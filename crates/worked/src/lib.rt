// Messages worked through, sealed, opened and refused; sessions, keys, stores and ends case by case.
#![tactic(auto)]

#[cfg(test)]
mod agreed;
#[cfg(test)]
mod ends;
#[cfg(test)]
mod fronts;
#[cfg(test)]
mod refusals;
#[cfg(test)]
mod round_trips;
#[cfg(test)]
mod session_stores;
#[cfg(test)]
mod sessions;
#[cfg(test)]
mod suites;
#[cfg(test)]
mod transcripts;
#[cfg(test)]
mod vectors;
