//! The walk to the first assignment at which the tables of two edges differ, over any kind, any letters and any store.
//!
//! The first is meant in the order of a table's entries: the bit of the top level counts most, and 0 comes before 1.
//! The walk goes down by the parts of both edges. At Shannon and positive Davio it needs no other tables; at negative
//! Davio it builds the sums of both parts, which are the low halves.
#![tactic(auto)]

mod walk;

pub use walk::first_difference;
