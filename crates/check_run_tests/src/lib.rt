//! Tests of the run, from words and texts to its lines and its status.
#![tactic(auto)]

#[cfg(test)]
mod decided;
#[cfg(test)]
mod faults;
#[cfg(test)]
mod language;
#[cfg(test)]
mod refused;
#[cfg(test)]
mod runs;
#[cfg(test)]
mod words;
