//! Gates, words and expressions over a builder of diagrams.
#![tactic(auto)]

mod expressions;
mod fold;
mod gates;
mod words;

pub use expressions::expression;
pub use fold::gate;
pub use gates::{and, not, or, xor};
pub use words::word;
