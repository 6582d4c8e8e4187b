/// How the diagrams of a check's sides are built.
#[derive(Clone, Copy, Debug, PartialEq, Eq)]
pub enum Method {
    /// From the inputs to the outputs, gate by gate.
    Forward,
    /// From the words back to the inputs: each gate's net is a variable first, and is then replaced by the
    /// gate's polynomial (Hamaguchi, Morita and Yajima 1995).
    Backward,
}
