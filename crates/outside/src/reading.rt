//! Whole files, read piece by piece.
ghost use Rattle.std.specs.Prelude.{◌≡◌, ℕ, List, ◌++◌, OnOk, OnErr, IsErrOf};
ghost use Rattle.outside.specs.Opener.{file_left};
ghost use Rattle.outside.specs.Shelf.{told, Lacks, AppendsFile, IsLonger};

use crate::{FetchError, Opener};
use std::io::{ErrorKind, Read};

/// The bytes that are read at once.
const PIECE: usize = 4_096;

/// Appends the whole file of this name.
pub(crate) fn read_named<S: Opener>(
    system: &S,
    name: &str,
    limit: usize,
    into: &mut Vec<u8>,
) -> Result<(), FetchError>
    ensures ok { OnOk result (AppendsFile (told (S.files system.now) name.now) limit into.old.items into.new.items) }
    ensures err { OnErr result (into.new.items ≡ into.old.items) }
    ensures absent { Lacks (S.files system.now) name.now → IsErrOf result FetchError.Failed }
    ensures too_long { IsErrOf result FetchError.TooLong → IsLonger (told (S.files system.now) name.now) limit }
{
    let Ok(mut file) = system.open(name) else {
        return Err(FetchError::Failed);
    };
    let start = into.len();
    let read = read_whole(&mut file, limit, into);
    if read.is_err() {
        into.truncate(start);
    }
    read
}

/// Appends what is left of a file, piece by piece. After an `Err` a part of it may stand there.
pub(crate) fn read_whole<F: Read>(
    file: &mut F,
    limit: usize,
    into: &mut Vec<u8>,
) -> Result<(), FetchError>
    ensures ok { OnOk result (AppendsFile (file_left (F.remaining file.old)) limit into.old.items into.new.items) }
    ensures err { OnErr result ((bytes : List ℕ) × (into.new.items ≡ into.old.items ++ bytes)) }
    ensures too_long { IsErrOf result FetchError.TooLong → IsLonger (file_left (F.remaining file.old)) limit }
{
    let mut left = limit;
    let mut piece = [0u8; PIECE];
    for _ in 0..u64::MAX {
        match file.read(&mut piece) {
            Ok(0) => return Ok(()),
            Ok(count) => {
                if count > left {
                    return Err(FetchError::TooLong);
                }
                into.extend_from_slice(&piece[..count])?;
                left -= count;
            }
            Err(e) => {
                if e.kind() != ErrorKind::Interrupted {
                    return Err(FetchError::Failed);
                }
            }
        }
    }
    Err(FetchError::Failed)
}
