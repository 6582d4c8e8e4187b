//! The words of a command in plain form: which command they say, and with which settings.
//!
//! `command_of` reads the words behind the program's name. Its contract is one definition, `command_of` in
//! `specs/Commands`, which is read after `Words`, `Numbers` and `Pairs`.
#![tactic(auto)]

mod command;
mod given;
mod limits;
mod number;
mod plain;
#[cfg(test)]
mod tests;
mod word;

pub use command::{Command, Settings};
pub use limits::{CELLS_OF_WORKER, MOST_CELLS, MOST_WORKERS, USUAL_CELLS, USUAL_WORKERS};
pub use plain::command_of;
