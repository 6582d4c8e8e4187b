//! Numbers, decompositions and assignments: the plain values that every crate of `worddd` speaks of.
//!
//! - `Weight`: an integer from `-(2^127-1)` to `2^127-1`, with exact sums and products or `Overflow`;
//! - `Decomp` and `KindName`: the three decompositions and the four kinds of diagram, `allows` and `usual`;
//! - `Levels`: the decomposition of each level, the top level first;
//! - `Assign`: one bit for each place.
//!
//! What a contract here says is said of plain values: a `Weight` is an integer, a `Levels` a list of
//! `Decomp`, an `Assign` a list of bits.
#![tactic(auto)]

mod assign;
mod decomp;
mod kind_name;
mod levels;
#[cfg(test)]
mod tests;
mod weight;

pub use assign::Assign;
pub use decomp::Decomp;
pub use kind_name::{KindName, allows, usual};
pub use levels::{Levels, LevelsFault, MOST_LEVELS};
pub use weight::{Overflow, Weight};
