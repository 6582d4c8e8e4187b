//! The unique table of decision-diagram nodes, which several threads share without a lock.
//!
//! - `table`: `SharedTable`, the table and the tokens of its passes. A token becomes a pass, `token`.
//! - `pass`: `SharedPass`, what one thread knows of the table. It is a `Store`; passes are split, and meet again. A pass
//!   borrows its table, so it does not outlive it.
//! - `probe`: the path of a body through the buckets. `stock` has the cells that a pass owns, `body` reads and writes a body,
//!   and `walk` takes single atomic steps, by `step`.
//!
//! The rule of the words is that of `table_rule`; each step keeps it (`specs/Taking`). No call waits or takes memory after
//! `create`. What a view holds costs nothing when the program runs.
#![tactic(auto)]

mod body;
mod pass;
mod probe;
mod step;
mod stock;
mod table;
mod token;
mod walk;

pub use pass::SharedPass;
pub use record_store::start;
pub use table::{CHUNK, MAX_CELLS, SharedTable, TableValue};
pub use token::{PassToken, PassValue};
