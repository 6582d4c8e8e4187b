//! Tables of integers over levels, and their canonical diagrams, for the four kinds of word-level decision diagram.
//!
//! The definitions stand in `specs/`: tables and their parts (`Table`), diagrams as trees and the joining rule
//! (`Tree`), the parts of a tree (`Parts`), the table that a tree stands for (`Meaning`), the canonical diagram
//! of a table and its nodes (`Canonical`), which tables are within the range of weights, and content (`Fits`), the
//! factor and the summand of a diagram's root (`Factors`), and the tables that operations go through (`Pieces`).
//! `Laws` states what makes diagrams canonical, and what holds of lists of nodes, content, fit, factors and summands.
//! Each law that is proved is the contract of a function here, which does nothing.
#![tactic(auto)]

mod laws;

pub use laws::{
    content_laws, evbdd_is_canonical, evbdd_laws, factor_laws, fits_laws, hdd_is_canonical,
    hdd_laws, k_star_bmd_is_canonical, k_star_bmd_laws, node_laws, star_bmd_is_canonical,
    star_bmd_laws, summand_laws,
};
