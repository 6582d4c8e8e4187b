//! Netlists that are made call by call and then read. `circuits` says what a circuit is, and what it computes.
//!
//! - `NetlistMaker` takes inputs, gates and outputs by name, and `finish` makes a `Netlist` of them;
//! - `Netlist` is read by number and by name, and gives orders, cones and values.
//!
//! In `specs/`: `Draft` and `Finish` (what was added, and what becomes of it), `Fault` (what a call answers in
//! place of a netlist).
#![tactic(auto)]

mod components;
mod cone;
mod cycle;
mod draft;
mod fault;
mod finish;
mod maker;
mod netlist;
mod nets;
mod order;
mod postorder;
mod source;
mod values;

pub use circuits::GateWord;
pub use fault::{NetCause, NetError, NetFault};
pub use maker::NetlistMaker;
pub use netlist::Netlist;
