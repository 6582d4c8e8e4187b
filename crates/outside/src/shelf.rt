ghost use Rattle.std.specs.Prelude.{◌≡◌, ℕ, List, OnOk, OnErr, IsErrOf, Option};
ghost use Rattle.outside.specs.Count.{raised};
ghost use Rattle.outside.specs.Shelf.{told, Lacks, AppendsFile, IsLonger, CountsFault};

use std::alloc::AllocError;
use std::fmt;

/// Why a file was not fetched.
#[derive(Clone, Copy, Debug, PartialEq, Eq)]
pub enum FetchError {
    /// The shelf met a fault, or has no file of this name.
    Failed,
    /// The file has more bytes than the limit.
    TooLong,
    /// Want of memory.
    Memory,
}

impl From<AllocError> for FetchError {
    ghost use Rattle.std.specs.Prelude.{◌≡◌};
    ghost use Rattle.outside.specs.declared.shelf.FetchError.TheVariants.{Memory};

    ghost from_gives = { λ _ e. e ≡ Memory };

    fn from(_: AllocError) -> Self {
        FetchError::Memory
    }
}

impl fmt::Display for FetchError {
    ghost use Rattle.std.specs.Prelude.{Some};
    ghost use Rattle.outside.specs.Text.{fetch_error_text};

    ghost output = { λ error. Some (fetch_error_text error) };

    fn fmt<W: fmt::Write>(&self, f: &mut fmt::Formatter<W>) -> fmt::Result {
        match self {
            FetchError::Failed => write!(f, "the file was not read"),
            FetchError::TooLong => write!(f, "the file is too long"),
            FetchError::Memory => write!(f, "out of memory"),
        }
    }
}

impl std::error::Error for FetchError {}

/// Files, by their names.
pub trait Shelf {
    /// The bytes of the file of each name, where there is one. `None` where the shelf does not tell.
    ghost files: { Self → Option (List ℕ → Option (List ℕ)) };

    /// How many fetches there were. The count stays at its last value, `2^64-1`.
    ghost fetches: { Self → ℕ };

    /// How many of them met a fault. The count stays at its last value, `2^64-1`.
    ghost faults: { Self → ℕ };

    /// Appends the whole file of this name, which may have up to `limit` bytes.
    fn fetch(&mut self, name: &str, limit: usize, into: &mut Vec<u8>) -> Result<(), FetchError>
        ensures same_files { files self.new ≡ files self.old }
        ensures counted { fetches self.new ≡ raised (fetches self.old) }
        ensures ok { OnOk result (AppendsFile (told (files self.old) name.now) limit into.old.items into.new.items) }
        ensures err { OnErr result (into.new.items ≡ into.old.items) }

        // When each error comes. `Failed` alone counts a fault.
        ensures absent { Lacks (files self.old) name.now → IsErrOf result FetchError.Failed }
        ensures too_long { IsErrOf result FetchError.TooLong → IsLonger (told (files self.old) name.now) limit }
        ensures fault { CountsFault (Lacks (files self.old) name.now) (faults self.old) (faults self.new) result };
}
