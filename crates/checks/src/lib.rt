//! What is answered to a check, and when a limit may be answered in its place.
//!
//! The definitions stand in `specs/`: the two sides of a check as tables (`Sides`), its answer (`Answer`), the
//! tables that the operations on diagrams go through (`Work`), those of a check by either method (`Forward`,
//! `Backward`), when a check is over the range of weights or short of cells (`Limits`), and the laws of all these
//! (`Laws`), each the contract of a function of `laws`.
#![tactic(auto)]

mod laws;
mod method;
mod verdict;

pub use laws::{
    first_difference_found, formula_tables, gate_tables, input_tables, sides_are_over,
    top_variable_replaced, walk_finds_first, word_tables,
};
pub use method::Method;
pub use verdict::Verdict;
