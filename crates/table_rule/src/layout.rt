/// How large a table is. Its words are one that is never written, then the buckets, eight words for each cell, and one
/// word for each chunk of cells.
#[derive(Clone, Copy, Drop)]
pub struct Layout {
    pub buckets: u64,
    pub cells: u64,
    /// How many cells a chunk has.
    pub chunk: u64,
    /// How many tokens were made with the table, numbered from 0.
    pub tokens: u64,
}
