//! Sets of the ids from 1 to a number, each of which is emptied at once.
#![tactic(auto)]

mod marks;
#[cfg(test)]
mod tests;

pub use marks::Marks;
