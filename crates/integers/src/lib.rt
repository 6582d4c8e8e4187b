//! Algebra over the integers: products, exact division, and greatest common divisors.
//!
//! `specs/` has the definitions (`Gcd`) and the laws (`Laws`). Each law is the contract of a function
//! here, which does nothing. The lemmas stand in `proofs/`, for the crates above: `Ring`, `Division`,
//! `GcdLaws` and `SignedGcd`, and `Solver`, which proves an identity of sums and products by computation.
#![tactic(auto)]

mod laws;

pub use laws::{gcd_laws, product_laws, signed_gcd_laws};
