//! Tests of the shared table, on one thread and on several.
#![tactic(auto)]

#[cfg(test)]
mod tests;
#[cfg(test)]
mod thread_tests;
