//! Combinational circuits: what their gates compute, and what the values of the nets are. A circuit is plain
//! data. Nets are numbered with the inputs first, in order, and then the gates, in order.
//!
//! - `GateWord` is what a gate computes;
//! - `MOST_INPUTS`, `MOST_GATES`, `MOST_FANIN` and `LONGEST_NAME` are the limits of a netlist;
//! - `laws`: each function there states a law of the definitions in `specs/`, which it proves.
//!
//! In `specs/`: `Circuit` (the data), `Names`, `Limits` and `Sound` (what holds of it), `Truth` and `Valuation`
//! (the values), `Order` and `Cone` (which gates come first, and which ones some nets need), `Polynomial`
//! (gates over ℤ), `Examples` (circuits), `Laws`.
#![tactic(auto)]

mod gate_word;
mod laws;
mod limits;

pub use gate_word::GateWord;
pub use laws::{
    accepted_by_order, cone_is_complete, cone_is_reached, one_valuation, polynomials_are_truth,
    topological_is_complete,
};
pub use limits::{LONGEST_NAME, MOST_FANIN, MOST_GATES, MOST_INPUTS};
