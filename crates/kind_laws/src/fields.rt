use word_base::Weight;

/// What the body of a node says.
#[derive(Clone, Copy, Debug, PartialEq, Eq)]
pub struct Fields {
    pub level: u16,
    /// The id of the low child, 0 for the leaf.
    pub low: u32,
    /// The id of the high child, 0 for the leaf.
    pub high: u32,
    /// The weight of the low edge, 0 in a kind that has none there.
    pub low_weight: Weight,
    /// What is added at the high edge, 0 in a kind that adds nothing.
    pub added: Weight,
    /// The weight of the high edge, 0 in a kind that has none there.
    pub high_weight: Weight,
}
