//! The kinds of word-level decision diagrams: the layout of a node, edges, and what a kind has to answer.
//!
//! - `words`: a weight as two words;
//! - `divisor`: the greatest common divisor of two magnitudes;
//! - `fields`, `body`: what a node says, and its eight words, written and read;
//! - `edge_words`: the five words of an edge, written and read;
//! - `kind`: `Edge`, `Joined` and the trait `Kind`.
//!
//! In `specs/`, `Body` and `EdgeWords` have the layouts, `Plain` edges as plain data, `Kind` and `Scale` what the calls of a kind
//! answer by the definitions for its name, and `Graph` says what an edge stands for over the bodies that are known: the canonical diagram of
//! a table. `proofs/GraphLaws` has its laws. All are for the four kinds at once.
#![tactic(auto)]

mod body;
mod divisor;
mod edge_words;
mod fields;
mod kind;
#[cfg(test)]
mod tests;
mod words;

pub use body::{added_of, children, high_weight_of, level_of, low_weight_of, pack_body};
pub use divisor::{gcd, magnitude};
pub use edge_words::{pack_edge, unpack_edge};
pub use fields::Fields;
pub use kind::{Edge, Joined, Kind};
