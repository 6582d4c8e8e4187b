/// What a gate computes of its inputs, as the `.bench` format of the ISCAS circuits names it.
#[derive(Clone, Copy, Debug, PartialEq, Eq)]
pub enum GateWord {
    /// All inputs are 1.
    And,
    /// Not all inputs are 1.
    Nand,
    /// Some input is 1.
    Or,
    /// No input is 1.
    Nor,
    /// An odd number of inputs is 1.
    Xor,
    /// An even number of inputs is 1.
    Xnor,
    /// The opposite of its one input.
    Not,
    /// Its one input.
    Buff,
}
