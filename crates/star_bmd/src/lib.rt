//! Multiplicative binary moment diagrams, *BMDs (Bryant and Chen 1995): positive Davio decompositions with multiplicative
//! edge weights.
//!
//! `StarBmd` is their `Kind`: an edge has the product of its weight and of what it leads to as its value, the leaf has the
//! value 1, and a node's two weights have no common divisor, the first of them that is not 0 being positive. `content_laws`
//! has that as its contract, and what follows for the content of edges; the other laws stand in `tables`.
#![tactic(auto)]

mod laws;
mod star_bmd;
#[cfg(test)]
mod tests;

pub use laws::content_laws;
pub use star_bmd::StarBmd;
