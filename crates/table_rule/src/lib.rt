//! The rule of a hash table of nodes that several threads share without a lock, as definitions and laws.
//!
//! The table is a row of words, and a pass is what one thread knows of it and owns in it, its view. `specs/Words` says
//! where a word stands, `specs/Views` what a view has, `specs/Rule` what holds between any two atomic steps, and
//! `specs/Steps` what the steps are. `specs/Laws` states that each step keeps the rule and what follows for the passes; each
//! law is the contract of a function in `laws`, which does nothing. `specs/PassStore` sees a pass as a store. No value of
//! `PassView` is ever made: views stand in proofs alone.
#![tactic(auto)]

mod laws;
mod layout;
mod view;

pub use laws::{bucket_laws, pass_laws, rule_laws, store_laws, whole_pass_laws};
pub use layout::Layout;
pub use view::PassView;
