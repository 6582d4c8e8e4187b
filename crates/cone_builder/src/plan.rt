/// What a check needs of its netlist.
#[derive(Clone, Copy)]
pub(crate) struct Plan<'a> {
    /// All inputs, from the top level down.
    pub(crate) order: &'a [u32],
    /// For each net whether it is needed.
    pub(crate) marks: &'a [bool],
    /// The needed gates, each after all that it reads.
    pub(crate) gates: &'a [u32],
}
