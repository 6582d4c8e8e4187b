//! The check of a multiplier of two words, as the two texts that a run reads: a netlist of gates, and that its product is
//! the product of its operands.
//!
//! - `generate` answers both texts;
//! - `input_count` and `gate_count` tell how many inputs and gates the netlist has.
//!
//! The multiplier is an array of adders: each row adds the products of one bit of `b` and all bits of `a`. It is defined in
//! `specs/`: `Nets` (names, inputs and product), `Gates`, `Adders` (the gates in their order) and `Texts`.
#![tactic(auto)]

mod adders;
mod counts;
mod gate;
mod net;
mod nets;
mod size;
#[cfg(test)]
mod tests;
mod texts;

pub use counts::{gate_count, input_count};
pub use size::{LEAST_SIZE, MOST_SIZE};
pub use texts::generate;
