ghost use Rattle.std.specs.Prelude.{◌≡◌, Some};
ghost use Rattle.multiplier.specs.Gates.{gate, gate_text, operation_text};

use crate::net::Net;
use std::fmt;

/// What a gate computes of its operands.
#[derive(Clone, Copy, Debug, PartialEq, Eq)]
pub(crate) enum Operation {
    And,
    Or,
    Xor,
}

/// A gate, by the net that it drives.
#[derive(Clone, Copy, Debug, PartialEq, Eq)]
pub(crate) struct Gate {
    pub net: Net,
    pub operation: Operation,
    pub left: Net,
    pub right: Net,
}

impl Gate {
    pub fn new(net: Net, operation: Operation, left: Net, right: Net) -> Self
        ensures { result ≡ gate net operation left right }
    {
        Gate {
            net,
            operation,
            left,
            right,
        }
    }
}

impl fmt::Display for Operation {
    ghost output = { λ operation. Some (operation_text operation) };

    fn fmt<W: fmt::Write>(&self, f: &mut fmt::Formatter<W>) -> fmt::Result {
        match self {
            Operation::And => write!(f, "AND"),
            Operation::Or => write!(f, "OR"),
            Operation::Xor => write!(f, "XOR"),
        }
    }
}

impl fmt::Display for Gate {
    ghost output = { λ gate. Some (gate_text gate) };

    fn fmt<W: fmt::Write>(&self, f: &mut fmt::Formatter<W>) -> fmt::Result {
        let Gate {
            net,
            operation,
            left,
            right,
        } = self;
        write!(f, "{net} = {operation}({left}, {right})")
    }
}
