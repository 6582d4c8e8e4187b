ghost use Rattle.std.specs.Prelude.{◌≡◌};
ghost use Rattle.bench_reader.specs.Steps.{cause_of};
ghost use Rattle.bench_reader.specs.declared.fault.BenchError.TheVariants.{Memory};

use netlist::NetCause;
use std::alloc::AllocError;
use std::error::Error;
use std::fmt;

/// What is wrong with a line.
#[derive(Clone, Copy, Debug, PartialEq, Eq)]
pub enum BenchCause {
    /// It has none of the forms of a line.
    BadLine,
    /// It has a gate word that names no gate.
    UnknownGate,
    /// It has a gate without inputs, or a NOT or BUFF with another number of inputs than one.
    BadArity,
    /// It defines a net that an earlier line defines.
    DuplicateNet,
    /// It names a net that no line defines.
    UndefinedNet,
    /// Its gate's net reaches itself along gate inputs.
    Cycle,
    /// It has a DFF, whose value depends on earlier ones.
    Sequential,
    /// It has a name above 64 bytes or more than 64 inputs, or is the 257th INPUT or the 4,097th gate.
    TooLarge,
    /// It has a byte above 127 outside a comment.
    NotAscii,
}

/// The first fault, and the number of its line, counted from 1.
#[derive(Clone, Copy, Debug, PartialEq, Eq)]
pub struct BenchFault {
    pub line: u32,
    pub cause: BenchCause,
}

/// Why no netlist was read.
#[derive(Clone, Copy, Debug, PartialEq, Eq)]
pub enum BenchError {
    Fault(BenchFault),
    /// Want of memory.
    Memory,
}

impl fmt::Display for BenchCause {
    ghost use Rattle.std.specs.Prelude.{Some};
    ghost use Rattle.bench_reader.specs.Texts.{cause_text};

    ghost output = { λ cause. Some (cause_text cause) };

    fn fmt<W: fmt::Write>(&self, f: &mut fmt::Formatter<W>) -> fmt::Result {
        match self {
            BenchCause::BadLine => write!(f, "bad-line"),
            BenchCause::UnknownGate => write!(f, "unknown-gate"),
            BenchCause::BadArity => write!(f, "bad-arity"),
            BenchCause::DuplicateNet => write!(f, "duplicate-net"),
            BenchCause::UndefinedNet => write!(f, "undefined-net"),
            BenchCause::Cycle => write!(f, "cycle"),
            BenchCause::Sequential => write!(f, "sequential"),
            BenchCause::TooLarge => write!(f, "too-large"),
            BenchCause::NotAscii => write!(f, "not-ascii"),
        }
    }
}

impl fmt::Display for BenchFault {
    ghost use Rattle.std.specs.Prelude.{Some};
    ghost use Rattle.bench_reader.specs.Texts.{fault_text};

    ghost output = { λ fault. Some (fault_text fault) };

    fn fmt<W: fmt::Write>(&self, f: &mut fmt::Formatter<W>) -> fmt::Result {
        let line = self.line;
        let cause = self.cause;
        write!(f, "{line} {cause}")
    }
}

impl fmt::Display for BenchError {
    ghost use Rattle.std.specs.Prelude.{Some};
    ghost use Rattle.bench_reader.specs.Texts.{error_text};

    ghost output = { λ error. Some (error_text error) };

    fn fmt<W: fmt::Write>(&self, f: &mut fmt::Formatter<W>) -> fmt::Result {
        match self {
            BenchError::Fault(fault) => write!(f, "{fault}"),
            BenchError::Memory => write!(f, "out of memory"),
        }
    }
}

impl Error for BenchCause {}

impl Error for BenchFault {}

impl Error for BenchError {}

impl From<AllocError> for BenchError {
    ghost from_gives = { λ _ e. e ≡ Memory };

    fn from(_: AllocError) -> BenchError {
        BenchError::Memory
    }
}

/// The cause of a line whose statement the maker of a netlist refuses.
pub(crate) fn bench_cause(cause: NetCause) -> BenchCause
    ensures { result ≡ cause_of cause }
{
    match cause {
        NetCause::DuplicateNet => BenchCause::DuplicateNet,
        NetCause::UndefinedNet => BenchCause::UndefinedNet,
        NetCause::Cycle => BenchCause::Cycle,
        NetCause::TooLarge => BenchCause::TooLarge,
    }
}
