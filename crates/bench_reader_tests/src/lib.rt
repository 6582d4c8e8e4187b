//! Tests of the reader of `.bench` files, by texts and their faults.
#![tactic(auto)]

#[cfg(test)]
mod tests;
