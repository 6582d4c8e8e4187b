//! Tests of gates, words and expressions over builders of two kinds.
#![tactic(auto)]

#[cfg(test)]
mod tests;
