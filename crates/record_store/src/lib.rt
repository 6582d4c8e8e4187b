//! Stores of the nodes of decision diagrams. A node is a body of eight words, and a store gives each body an id.
//!
//! - `store`: the trait `Store`. Its contracts see a store as a `StoreView` (`specs/StoreView`);
//!   `specs/Interns` says what a call of `intern` answers and leaves.
//! - `path`: the hash of a body, and the bucket at which its path begins.
//! - `probe`: the walk along the path of a body.
//! - `solo`: `SoloStore`, the store of one thread.
#![tactic(auto)]

mod path;
mod probe;
mod solo;
mod store;
#[cfg(test)]
mod tests;

pub use path::start;
pub use solo::{MAX_CELLS, SoloStore};
pub use store::{Store, StoreFull};
