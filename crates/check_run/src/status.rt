ghost use Rattle.std.specs.Prelude.{◌≡◌};
ghost use Rattle.std.specs.List.{list_any};
ghost use Rattle.check_run.specs.Statuses.{is_different, is_limit, status_number, status_of};

use checks::Verdict;

/// How a run ended.
#[derive(Clone, Copy, Debug, PartialEq, Eq)]
pub enum Status {
    /// Every check is equal.
    Done,
    /// Some check is different, and none met a limit.
    Differs,
    /// The words, the netlist or the specification are refused.
    Refused,
    /// Some check left the range of weights, or filled the cells.
    Limited,
    /// A file could not be read. Nothing is written.
    ReadFault,
    /// The report could not be written whole.
    WriteFault,
    /// Want of memory. Nothing is written.
    NoMemory,
}

impl Status {
    /// The status that a program ends with.
    pub fn number(self) -> u8
        ensures { result ≡ status_number self }
    {
        match self {
            Status::Done => 0,
            Status::Differs => 1,
            Status::Refused => 2,
            Status::Limited => 3,
            Status::ReadFault => 4,
            Status::WriteFault => 5,
            Status::NoMemory => 6,
        }
    }
}

fn is_limit(verdict: &Verdict) -> bool
    ensures { result ≡ is_limit verdict.now }
{
    match verdict {
        Verdict::Overflow | Verdict::Full => true,
        Verdict::Equal { .. } | Verdict::Different { .. } => false,
    }
}

fn is_different(verdict: &Verdict) -> bool
    ensures { result ≡ is_different verdict.now }
{
    match verdict {
        Verdict::Different { .. } => true,
        Verdict::Equal { .. } | Verdict::Overflow | Verdict::Full => false,
    }
}

fn has_limit(verdicts: &[Verdict]) -> bool
    ensures { result ≡ list_any is_limit verdicts.now }
{
    verdicts.iter().any(|verdict| is_limit(verdict))
}

fn has_difference(verdicts: &[Verdict]) -> bool
    ensures { result ≡ list_any is_different verdicts.now }
{
    verdicts.iter().any(|verdict| is_different(verdict))
}

/// The status of a run that wrote the line of each verdict.
pub(crate) fn status_of(verdicts: &[Verdict]) -> Status
    ensures { result ≡ status_of verdicts.now }
{
    if has_limit(verdicts) {
        Status::Limited
    } else if has_difference(verdicts) {
        Status::Differs
    } else {
        Status::Done
    }
}
