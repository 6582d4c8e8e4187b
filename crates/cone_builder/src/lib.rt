//! The diagrams of both sides of a check, built forward: from the inputs through the gates to the words.
//!
//! `build_one` builds the variable of each input that the check needs, then each gate of the check's cone in
//! topological order, each word that it names, and both expressions.
#![tactic(auto)]

mod build_error;
mod expressions;
mod gates;
mod inputs;
mod plan;
mod words;

pub use build_error::BuildError;
pub use expressions::build_one;
