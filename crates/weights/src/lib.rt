//! Functions on weights, beside their sums: greatest common divisors, magnitudes, exact quotients, products, and powers of
//! two. What is asked most often is answered at once, or in 64 bits where the numbers have no more.
#![tactic(auto)]

mod divisor;
mod power;
mod products;
mod quotient;
#[cfg(test)]
mod tests;

pub use divisor::{gcd, gcd3, signed_gcd};
pub use power::power_of_two;
pub use products::product;
pub use quotient::{exact_div, magnitude};
