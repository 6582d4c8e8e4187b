//! A reader of specification files: the specification that a text says over a netlist, or its first fault.
//!
//! What each text says is defined in `spec_grammar`; `read` is proved to answer that. It goes through the lines by
//! `draft`, where each kind of line has a reader of its own: `net_lines` for orders, letters and words, `check_line`
//! for checks. A check is read from its symbols (`symbol`) without recursion: `survey` counts the nesting from left to
//! right, and finds whether the symbols are an expression at all; `expression` builds it with a stack, once the symbols
//! are known to be few. Want of memory may be answered anywhere.
//!
//! `specs/` has what the contracts of the inner functions say, and serves the proofs alone.
#![tactic(auto)]

mod atom;
mod check_line;
mod draft;
mod expression;
mod fields;
mod line_error;
mod names;
mod net_lines;
mod nets;
mod reader;
mod survey;
mod symbol;

pub use reader::read;
