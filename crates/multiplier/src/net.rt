ghost use Rattle.std.specs.Prelude.{Some};
ghost use Rattle.multiplier.specs.Nets.{net_text};

use std::fmt;

/// A net of the multiplier. Columns and rows are counted from 0; a column stands for a bit of `a`, a row for a bit of `b`.
#[derive(Clone, Copy, Debug, PartialEq, Eq)]
pub(crate) enum Net {
    /// A bit of the first operand.
    A(u32),
    /// A bit of the second operand.
    B(u32),
    /// The product of a bit of each operand.
    Partial { column: u32, row: u32 },
    /// The sum of an adder.
    Sum { row: u32, column: u32 },
    /// The carry of an adder.
    Carry { row: u32, column: u32 },
    /// The sum of the first two bits of an adder of three.
    FirstSum { row: u32, column: u32 },
    /// The carry of the first two bits of an adder of three.
    FirstCarry { row: u32, column: u32 },
    /// The carry of their sum and the third bit.
    SecondCarry { row: u32, column: u32 },
}

impl fmt::Display for Net {
    ghost output = { λ net. Some (net_text net) };

    fn fmt<W: fmt::Write>(&self, f: &mut fmt::Formatter<W>) -> fmt::Result {
        match self {
            Net::A(bit) => write!(f, "a{bit}"),
            Net::B(bit) => write!(f, "b{bit}"),
            Net::Partial { column, row } => write!(f, "p{column}_{row}"),
            Net::Sum { row, column } => write!(f, "s{row}_{column}"),
            Net::Carry { row, column } => write!(f, "c{row}_{column}"),
            Net::FirstSum { row, column } => write!(f, "t{row}_{column}"),
            Net::FirstCarry { row, column } => write!(f, "d{row}_{column}"),
            Net::SecondCarry { row, column } => write!(f, "e{row}_{column}"),
        }
    }
}
