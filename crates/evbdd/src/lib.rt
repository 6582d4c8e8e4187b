//! Edge-valued binary decision diagrams (Lai and Sastry 1992): Shannon decompositions with additive edge weights.
//!
//! `Evbdd` is their `Kind`: an edge has the sum of its weight and of what it leads to as its value, and a node's low edge
//! the weight 0.
#![tactic(auto)]

mod evbdd;
#[cfg(test)]
mod tests;

pub use evbdd::Evbdd;
