//! The specification language: what each list of bytes says, as definitions apart from any reader.
//!
//! A line is empty or one of `order NET .. NET`, `split LETTER NET .. NET`, `word NAME = NET .. NET` and
//! `check EXPR == EXPR`. `specs/` goes from `Names`, `Fields` and `Symbols` (what a line is made of) over `Grammar`
//! (which expressions there are, and how each is written), `Parsing` (the expression that symbols write), `Forms`
//! (the form of a line), `Faults` (what is wrong with it) to `Reading`: each text has one specification or one
//! first fault.
//!
//! - `fault`: the causes and the numbers of lines by which a text is refused;
//! - `laws`: the symbols of a line write at most one expression, and it is the one that is parsed.
#![tactic(auto)]

mod fault;
pub mod laws;
mod limits;

pub use fault::{SpecCause, SpecError, SpecFault};
pub use limits::MOST_NESTING;
