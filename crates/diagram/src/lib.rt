//! Builders of word-level decision diagrams, over any kind, any letters and any store.
#![tactic(auto)]

mod at_once;
mod builder;
mod cofactor;
mod content;
mod count;
mod difference;
mod limit;
mod manager;
mod multiple;
mod multiple_walk;
mod node_walk;
mod operation;
mod parts;
mod product_walk;
mod split;
mod step;
mod sum_rests;
mod sum_walk;
mod walk;

pub use builder::Builder;
pub use limit::Limit;
pub use parts::Parts;
