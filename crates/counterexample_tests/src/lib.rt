//! Tests of the walk to the first difference, over every kind.
#![tactic(auto)]

#[cfg(test)]
mod tests;
