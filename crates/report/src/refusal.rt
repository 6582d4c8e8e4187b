ghost use Rattle.std.specs.Prelude.{◌≡◌, [], ◌∷◌, ◌++◌, Some, IfOk, string_bytes};
ghost use Rattle.report.specs.Refusals.{refusal_text};

use bench_reader::BenchFault;
use spec_grammar::SpecFault;
use std::alloc::{AllocError, Global};
use std::error::Error;
use std::fmt;

/// Why a run takes nothing: which of its words and files it refuses.
#[derive(Clone, Copy, Debug, PartialEq, Eq)]
pub enum Refusal {
    /// The words say no command.
    Usage,
    /// The words say a command that is not built yet.
    Words,
    /// The netlist file is above the limit.
    NetlistTooLong,
    /// The first fault of the netlist.
    Netlist(BenchFault),
    /// The specification file is above the limit.
    SpecTooLong,
    /// The first fault of the specification.
    Spec(SpecFault),
}

impl fmt::Display for Refusal {
    ghost output = { λ refusal. Some (refusal_text refusal) };

    fn fmt<W: fmt::Write>(&self, f: &mut fmt::Formatter<W>) -> fmt::Result {
        match self {
            Refusal::Usage => write!(f, "refused usage"),
            Refusal::Words => write!(f, "refused words unbuilt"),
            Refusal::NetlistTooLong => write!(f, "refused netlist too-long"),
            Refusal::Netlist(fault) => write!(f, "refused netlist {fault}"),
            Refusal::SpecTooLong => write!(f, "refused spec too-long"),
            Refusal::Spec(fault) => write!(f, "refused spec {fault}"),
        }
    }
}

impl Error for Refusal {}

/// The line of a refusal. `Err` is want of memory.
pub fn refusal_line(alloc: Global, refusal: &Refusal) -> Result<String, AllocError>
    ensures { IfOk result (λ text. string_bytes text ≡ refusal_text refusal.now ++ 10 ∷ []) }
{
    format!(in alloc; "{refusal}\n")
}
