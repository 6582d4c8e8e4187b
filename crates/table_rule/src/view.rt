use std::collections::LinkedList;

/// What a pass knows of the table, and what it owns there.
pub struct PassView {
    /// Buckets, each with the id that was read there.
    pub seen: LinkedList<(u64, u64)>,
    /// Words of cells: the id of the cell, the place in its body, and the word.
    pub words: LinkedList<(u64, u64, u64)>,
    /// Ids, each with its body.
    pub known: LinkedList<(u64, LinkedList<u64>)>,
    /// The ids that the pass published, or a pass that met in it.
    pub made: LinkedList<u64>,
    /// Its own cells that are not published. The first may be the draft.
    pub held: LinkedList<u64>,
    /// The words that were written so far into the draft.
    pub draft: LinkedList<u64>,
    /// The cells that passes which met in it have given up.
    pub gone: LinkedList<u64>,
    /// The chunks that were seen taken.
    pub taken: LinkedList<u64>,
    /// The numbers of the tokens that are gathered in it.
    pub tokens: LinkedList<u64>,
    /// How many passes have met in it, with those that had met in them.
    pub joined: u64,
    /// Whether it, or a pass that met in it, was ever forked.
    pub forked: bool,
    /// Whether it has met in another.
    pub ended: bool,
}
