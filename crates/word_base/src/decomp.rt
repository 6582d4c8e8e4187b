/// How a table over a level is split in two, `part0` and `part1`, where `lo` is its half with the
/// level's variable at 0 and `hi` the one with it at 1.
#[derive(Clone, Copy, Debug, PartialEq, Eq)]
pub enum Decomp {
    /// Shannon: `lo` and `hi`.
    S,
    /// Positive Davio, also called moment decomposition: `lo` and `hi - lo`.
    P,
    /// Negative Davio: `hi` and `lo - hi`.
    N,
}
