use crate::fault::{BenchCause, bench_cause};
use netlist::NetError;
use std::alloc::AllocError;

/// Why a line adds nothing.
#[derive(Clone, Copy)]
pub(crate) enum LineError {
    Fault(BenchCause),
    Memory,
}

impl From<BenchCause> for LineError {
    ghost use Rattle.std.specs.Prelude.{◌≡◌};
    ghost use Rattle.bench_reader.specs.declared.line_error.LineError.TheVariants.{Fault};

    ghost from_gives = { λ cause error. error ≡ Fault cause };

    fn from(cause: BenchCause) -> LineError {
        LineError::Fault(cause)
    }
}

impl From<AllocError> for LineError {
    ghost use Rattle.std.specs.Prelude.{◌≡◌};
    ghost use Rattle.bench_reader.specs.declared.line_error.LineError.TheVariants.{Memory};

    ghost from_gives = { λ _ error. error ≡ Memory };

    fn from(_: AllocError) -> LineError {
        LineError::Memory
    }
}

impl From<NetError> for LineError {
    ghost use Rattle.std.specs.Prelude.{◌≡◌};
    ghost use Rattle.bench_reader.specs.Steps.{line_error_of};

    ghost from_gives = { λ refused error. error ≡ line_error_of refused };

    fn from(refused: NetError) -> LineError {
        match refused {
            NetError::Fault(fault) => LineError::Fault(bench_cause(fault.cause)),
            NetError::Memory => LineError::Memory,
        }
    }
}
