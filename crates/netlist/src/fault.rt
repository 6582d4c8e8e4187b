use std::alloc::{AllocError, AllocFailed};
use std::fmt;

/// What keeps a netlist from being made.
#[derive(Clone, Copy, Debug, PartialEq, Eq)]
pub enum NetCause {
    /// An input or gate has the name of an input or gate that was added before.
    DuplicateNet,
    /// A gate or an output names a net that was never added.
    UndefinedNet,
    /// A gate's net reaches itself along gate inputs.
    Cycle,
    /// A name, a gate or the netlist is above a limit.
    TooLarge,
}

/// A cause, and the call that it speaks of.
#[derive(Clone, Copy, Debug, PartialEq, Eq)]
pub struct NetFault {
    /// The number of the add call, counted from 1.
    pub at: u32,
    pub cause: NetCause,
}

/// Why there is no netlist, or why nothing was added to one.
#[derive(Clone, Copy, Debug, PartialEq, Eq)]
pub enum NetError {
    Fault(NetFault),
    /// Want of memory.
    Memory,
}

impl fmt::Display for NetCause {
    ghost use Rattle.std.specs.Prelude.{Some};
    ghost use Rattle.netlist.specs.Fault.{cause_text};

    ghost output = { λ cause. Some (cause_text cause) };

    fn fmt<W: fmt::Write>(&self, f: &mut fmt::Formatter<W>) -> fmt::Result {
        match self {
            NetCause::DuplicateNet => write!(f, "the net is defined twice"),
            NetCause::UndefinedNet => write!(f, "a net is not defined"),
            NetCause::Cycle => write!(f, "the gate reaches itself"),
            NetCause::TooLarge => write!(f, "above a limit"),
        }
    }
}

impl fmt::Display for NetFault {
    ghost use Rattle.std.specs.Prelude.{Some};
    ghost use Rattle.netlist.specs.Fault.{fault_text};

    ghost output = { λ fault. Some (fault_text fault) };

    fn fmt<W: fmt::Write>(&self, f: &mut fmt::Formatter<W>) -> fmt::Result {
        let at = self.at;
        let cause = self.cause;
        write!(f, "call {at}: {cause}")
    }
}

impl fmt::Display for NetError {
    ghost use Rattle.std.specs.Prelude.{Some};
    ghost use Rattle.netlist.specs.Fault.{error_text};

    ghost output = { λ error. Some (error_text error) };

    fn fmt<W: fmt::Write>(&self, f: &mut fmt::Formatter<W>) -> fmt::Result {
        match self {
            NetError::Fault(fault) => write!(f, "{fault}"),
            NetError::Memory => write!(f, "out of memory"),
        }
    }
}

impl std::error::Error for NetCause {}

impl std::error::Error for NetFault {}

impl std::error::Error for NetError {}

impl From<AllocError> for NetError {
    ghost use Rattle.std.specs.Prelude.{◌≡◌};
    ghost use Rattle.netlist.specs.declared.fault.NetError.TheVariants.{Memory};

    ghost from_gives = { λ _ e. e ≡ Memory };

    fn from(_: AllocError) -> NetError {
        NetError::Memory
    }
}

impl<T: Drop> From<AllocFailed<T>> for NetError {
    ghost use Rattle.std.specs.Prelude.{◌≡◌};
    ghost use Rattle.netlist.specs.declared.fault.NetError.TheVariants.{Memory};

    ghost from_gives = { λ _ e. e ≡ Memory };

    fn from(_: AllocFailed<T>) -> NetError {
        NetError::Memory
    }
}

impl From<NetFault> for NetError {
    ghost use Rattle.std.specs.Prelude.{◌≡◌};
    ghost use Rattle.netlist.specs.declared.fault.NetError.TheVariants.{Fault};

    ghost from_gives = { λ f e. e ≡ Fault f };

    fn from(fault: NetFault) -> NetError {
        NetError::Fault(fault)
    }
}
