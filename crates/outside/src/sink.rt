ghost use Rattle.std.specs.Prelude.{◌≡◌, ℕ, List, OnOk, OnErr, is_err, Option};
ghost use Rattle.std.specs.Io.KnownBytes.{Appends};
ghost use Rattle.outside.specs.Count.{counted};
ghost use Rattle.outside.specs.Sink.{AppendsPrefix};

use std::fmt;

/// The sink met a fault.
#[derive(Clone, Copy, Debug, PartialEq, Eq)]
pub struct PutFailed;

impl fmt::Display for PutFailed {
    ghost use Rattle.std.specs.Prelude.{Some};
    ghost use Rattle.outside.specs.Text.{put_failed_text};

    ghost output = { λ _. Some put_failed_text };

    fn fmt<W: fmt::Write>(&self, f: &mut fmt::Formatter<W>) -> fmt::Result {
        write!(f, "not all was written")
    }
}

impl std::error::Error for PutFailed {}

/// Takes bytes.
pub trait Sink {
    /// All that was written. `None` where the sink does not tell.
    ghost written: { Self → Option (List ℕ) };

    /// How often the sink has met a fault. The count stays at its last value, `2^64-1`.
    ghost faults: { Self → ℕ };

    /// Appends all the bytes, or those in front of a fault. It takes no memory.
    fn put(&mut self, bytes: &[u8]) -> Result<(), PutFailed>
        ensures ok { OnOk result (Appends (written self.old) (written self.new) bytes.now) }
        ensures err { OnErr result (AppendsPrefix (written self.old) (written self.new) bytes.now) }

        // The count of faults rises by one where it fails, and stays where it does not.
        ensures fault { faults self.new ≡ counted (is_err result) (faults self.old) };
}
