//! Kronecker multiplicative binary moment diagrams, K*BMDs (Drechsler, Becker and Ruppertz 1996): an additive and a
//! multiplicative weight on each edge, and one of three decompositions for each level.
//!
//! `KStarBmd` is their `Kind`: an edge has its `extra`, and its `weight` times what it leads to, as its value, the leaf has
//! the value 0, and the weight is 0 exactly on the edges to the leaf. A node's low edge adds nothing, and its three weights
//! have no common divisor. `content_laws` has that as its contract, and what follows for the content of edges; the other
//! laws stand in `tables`.
#![tactic(auto)]

mod k_star_bmd;
mod laws;
#[cfg(test)]
mod tests;

pub use k_star_bmd::KStarBmd;
pub use laws::content_laws;
