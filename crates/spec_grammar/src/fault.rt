ghost use Rattle.std.specs.Prelude.{◌≡◌};
ghost use Rattle.spec_grammar.specs.declared.fault.SpecError.TheVariants.{Memory};

use std::alloc::AllocError;
use std::error::Error;
use std::fmt;

/// What is wrong with a line, or with the whole text.
#[derive(Clone, Copy, Debug, PartialEq, Eq)]
pub enum SpecCause {
    /// It has none of the forms of a line.
    BadLine,
    /// It names a net that the netlist does not have.
    UnknownNet,
    /// A check names a word that no earlier line defines.
    UnknownWord,
    /// It defines a word that an earlier line defines.
    DuplicateWord,
    /// It is a second order line, or does not name each input once.
    BadOrder,
    /// A split line names a net that is no input, or an input that has a letter.
    BadSplit,
    /// The kind of diagram does not have the letter.
    SplitNotForKind,
    /// A number is above `2^127-1`.
    NumberTooLarge,
    /// A name has more than 64 bytes, a word more than 127 nets, a check more than 1,024 symbols or a nesting above
    /// 64, or it is the 65th word or the 65th check.
    TooLarge,
    /// No line is a check.
    NoCheck,
}

/// The first fault, and the number of its line, counted from 1; 0 where there is no check.
#[derive(Clone, Copy, Debug, PartialEq, Eq)]
pub struct SpecFault {
    pub line: u32,
    pub cause: SpecCause,
}

/// Why no specification was read.
#[derive(Clone, Copy, Debug, PartialEq, Eq)]
pub enum SpecError {
    Fault(SpecFault),
    /// Want of memory.
    Memory,
}

impl fmt::Display for SpecCause {
    ghost use Rattle.std.specs.Prelude.{Some};
    ghost use Rattle.spec_grammar.specs.Texts.{cause_text};

    ghost output = { λ cause. Some (cause_text cause) };

    fn fmt<W: fmt::Write>(&self, f: &mut fmt::Formatter<W>) -> fmt::Result {
        match self {
            SpecCause::BadLine => write!(f, "bad-line"),
            SpecCause::UnknownNet => write!(f, "unknown-net"),
            SpecCause::UnknownWord => write!(f, "unknown-word"),
            SpecCause::DuplicateWord => write!(f, "duplicate-word"),
            SpecCause::BadOrder => write!(f, "bad-order"),
            SpecCause::BadSplit => write!(f, "bad-split"),
            SpecCause::SplitNotForKind => write!(f, "split-not-for-kind"),
            SpecCause::NumberTooLarge => write!(f, "number-too-large"),
            SpecCause::TooLarge => write!(f, "too-large"),
            SpecCause::NoCheck => write!(f, "no-check"),
        }
    }
}

impl fmt::Display for SpecFault {
    ghost use Rattle.std.specs.Prelude.{Some};
    ghost use Rattle.spec_grammar.specs.Texts.{fault_text};

    ghost output = { λ fault. Some (fault_text fault) };

    fn fmt<W: fmt::Write>(&self, f: &mut fmt::Formatter<W>) -> fmt::Result {
        let line = self.line;
        let cause = self.cause;
        write!(f, "{line} {cause}")
    }
}

impl fmt::Display for SpecError {
    ghost use Rattle.std.specs.Prelude.{Some};
    ghost use Rattle.spec_grammar.specs.Texts.{error_text};

    ghost output = { λ error. Some (error_text error) };

    fn fmt<W: fmt::Write>(&self, f: &mut fmt::Formatter<W>) -> fmt::Result {
        match self {
            SpecError::Fault(fault) => write!(f, "{fault}"),
            SpecError::Memory => write!(f, "out of memory"),
        }
    }
}

impl Error for SpecCause {}

impl Error for SpecFault {}

impl Error for SpecError {}

impl From<AllocError> for SpecError {
    ghost from_gives = { λ _ e. e ≡ Memory };

    fn from(_: AllocError) -> SpecError {
        SpecError::Memory
    }
}
