ghost use Rattle.std.specs.Prelude.{◌≡◌};

use bench_reader::BenchError;
use outside::FetchError;
use report::Refusal;
use spec_grammar::SpecError;
use std::alloc::AllocError;

/// Why nothing is decided.
#[derive(Debug, Drop)]
pub(crate) enum Stop {
    /// The words or a file are refused.
    Refused(Refusal),
    /// A file could not be read.
    ReadFault,
    /// Want of memory.
    Memory,
}

impl Stop {
    ghost use Rattle.check_run.specs.Loading.{stop_of_fetch};

    /// Why a file stops a run that was not fetched. One that is too long has this refusal.
    pub(crate) fn of_fetch(error: FetchError, too_long: Refusal) -> Stop
        ensures { result ≡ stop_of_fetch too_long error }
    {
        match error {
            FetchError::Failed => Stop::ReadFault,
            FetchError::TooLong => Stop::Refused(too_long),
            FetchError::Memory => Stop::Memory,
        }
    }
}

impl From<AllocError> for Stop {
    ghost use Rattle.check_run.specs.declared.stop.Stop.TheVariants as variants;

    ghost from_gives = { λ error stop. stop ≡ variants.Memory };

    fn from(_error: AllocError) -> Stop {
        Stop::Memory
    }
}

impl From<BenchError> for Stop {
    ghost use Rattle.check_run.specs.Loading.{stop_of_netlist};

    ghost from_gives = { λ error stop. stop ≡ stop_of_netlist error };

    fn from(error: BenchError) -> Stop {
        match error {
            BenchError::Fault(fault) => Stop::Refused(Refusal::Netlist(fault)),
            BenchError::Memory => Stop::Memory,
        }
    }
}

impl From<SpecError> for Stop {
    ghost use Rattle.check_run.specs.Loading.{stop_of_spec};

    ghost from_gives = { λ error stop. stop ≡ stop_of_spec error };

    fn from(error: SpecError) -> Stop {
        match error {
            SpecError::Fault(fault) => Stop::Refused(Refusal::Spec(fault)),
            SpecError::Memory => Stop::Memory,
        }
    }
}
