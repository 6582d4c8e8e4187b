//! A cache of the results of operations on diagrams, by the operation and its two operands.
//!
//! - `key`: `CacheKey`, and `HashedKey`, which has its hash too; its place.
//! - `cache`: `ResultCache`. Its contracts see it as the list of its places (`specs/Cache`): each is empty, or has a key and the value
//!   that was kept last for it.
#![tactic(auto)]

mod cache;
mod key;
#[cfg(test)]
mod tests;

pub use cache::{MAX_LOG, ResultCache};
pub use key::{CacheKey, HashedKey};
