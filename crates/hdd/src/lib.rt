//! Hybrid decision diagrams (Clarke, Fujita and Zhao 1995), restricted to the Shannon, positive and negative Davio decompositions.
//!
//! `Hdd` is their `Kind`: an edge is a constant, whose node is 0 and whose weight is the constant, or leads to a node and
//! has weight 0.
#![tactic(auto)]

mod hdd;
#[cfg(test)]
mod tests;

pub use hdd::Hdd;
