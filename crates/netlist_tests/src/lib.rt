//! Tests of netlists, made and read by their public calls. They stand apart from `netlist`, so that its proofs are not made twice.
#![tactic(auto)]

#[cfg(test)]
mod tests;
