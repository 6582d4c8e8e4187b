//! Tests of the reader of specification files, by texts and their faults.
#![tactic(auto)]

#[cfg(test)]
mod tests;
