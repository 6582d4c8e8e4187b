//! The `.bench` format of the ISCAS circuits: what each list of bytes says, and a reader of it.
//!
//! - `read` answers the netlist of the bytes, or their first fault;
//! - `BenchCause`, `BenchFault`: what may be wrong with the bytes, and on which line.
//!
//! The format is defined in `specs/`: `Symbols`, `Forms` and `Words` (what stands on a line), `Statements` (what
//! it says), `Faults` (what is wrong with it), `Later` (what is wrong with all lines together) and `Reading`; lines
//! and white space in `texts`. `Views`, `Steps` and `Gathered` serve the proofs of the reader alone. Each reader
//! of a part is proved to answer what these definitions give.
#![tactic(auto)]

mod fault;
mod form;
mod gather;
mod inputs;
mod line_error;
mod reader;
mod statement;
mod symbol;
mod word;

pub use fault::{BenchCause, BenchError, BenchFault};
pub use reader::read;
