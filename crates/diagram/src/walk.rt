/// How a sum walks its operands.
#[derive(Clone, Copy, Debug, PartialEq, Eq)]
pub(crate) enum Walk {
    /// Without their shifts and then without their common factor, which the sum gets back. It meets few different pairs.
    Stripping,
    /// As they are.
    Plain,
}
