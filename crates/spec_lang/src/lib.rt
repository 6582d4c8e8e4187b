//! Specifications: words of nets, and checks that two word expressions are equal.
//!
//! - `Spec`: an order of the inputs with their letters, `Word`s and `Check`s, and what they read as;
//! - `Expr`: an expression as it is written, a tree of numbers, words and operations;
//! - `laws`: what holds of the definitions below.
//!
//! What contracts say of a specification stands in `specs/`: `Formula` is an expression as a plain tree,
//! `Specification` a whole specification as plain data, `WellFormed` what holds of each, `Value` has the value
//! of a word and of a formula and says when it is in range, `Named` lists the nets that a check names, `Placed` has
//! the values of all nets at bits of the inputs in the specification's order, `Evaluated` what an evaluation answers.
#![tactic(auto)]

mod check;
mod eval_error;
mod expr;
mod inputs;
pub mod laws;
mod limits;
mod named;
mod order;
mod spec;
#[cfg(test)]
mod tests;
mod value;
mod word;

pub use check::Check;
pub use eval_error::EvalError;
pub use expr::Expr;
pub use limits::{MOST_CHECKS, MOST_NETS_OF_WORD, MOST_SYMBOLS, MOST_WORDS};
pub use order::input_order;
pub use spec::Spec;
pub use word::Word;
