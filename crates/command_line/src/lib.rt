//! The words of a command, also where they are not in plain form.
//!
//! Words in plain form are read by `settings`. Others that begin with `check` or `gen` go to clap, and the values that it finds are read by
//! `settings` as well, in the words of plain form. The contract of `command_of` is one definition, `command_of` in `specs/Commands`, which is
//! read after `Apps`, `Found` and `PlainWords`; it stands on clap's own definitions of what it finds. `specs/Taken` says in other words which
//! commands those are, and two laws that it comes to the same.
#![tactic(auto)]

mod apps;
mod find;
mod laws;
mod line;
mod plain_words;
#[cfg(test)]
mod tests;

pub use laws::{read_words_are_taken, taken_words_are_read};
pub use line::command_of;
