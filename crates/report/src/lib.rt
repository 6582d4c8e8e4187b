//! The lines that a run writes.
//!
//! - `verdict_lines` are the lines of all checks, each of which says a `Verdict` (of `checks`);
//! - `made_line` is the line of a multiplier that was made;
//! - `Refusal` is why a run takes nothing, and `refusal_line` its line.
//!
//! The texts are defined in `specs/`: `Lines` (of checks), `Made` and `Refusals`.
#![tactic(auto)]

mod lines;
mod made;
mod refusal;
#[cfg(test)]
mod tests;

pub use lines::verdict_lines;
pub use made::made_line;
pub use refusal::{Refusal, refusal_line};
