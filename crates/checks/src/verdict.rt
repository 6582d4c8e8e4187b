use word_base::{Assign, Weight};

/// What is answered to a check.
#[derive(Debug, Drop)]
pub enum Verdict {
    /// Both sides have the same values.
    Equal {
        /// How many different nodes the diagram of the left side has.
        nodes: u32,
    },
    /// The sides differ: both values at the first assignment where they do.
    Different {
        left: Weight,
        right: Weight,
        /// The bits of the inputs from the top level down.
        at: Assign,
    },
    /// The check left the range of weights.
    Overflow,
    /// The check filled the cells.
    Full,
}
