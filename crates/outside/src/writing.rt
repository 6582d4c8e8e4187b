//! Bytes, written piece by piece.
ghost use Rattle.std.specs.Prelude.{OnOk, OnErr};
ghost use Rattle.std.specs.Io.KnownBytes.{Appends};
ghost use Rattle.outside.specs.Sink.{AppendsPrefix};

use crate::PutFailed;
use std::io::{ErrorKind, Write};

/// Writes all the bytes, or those in front of a fault.
pub(crate) fn write_whole<W: Write>(output: &mut W, bytes: &[u8]) -> Result<(), PutFailed>
    ensures ok { OnOk result (Appends (W.contents output.old) (W.contents output.new) bytes.now) }
    ensures err { OnErr result (AppendsPrefix (W.contents output.old) (W.contents output.new) bytes.now) }
{
    let mut rest = bytes;
    for _ in 0..u64::MAX {
        if rest.is_empty() {
            return Ok(());
        }
        match output.write(rest) {
            Ok(0) => return Err(PutFailed),
            Ok(taken) => rest = &rest[taken..],
            Err(e) => {
                if e.kind() != ErrorKind::Interrupted {
                    return Err(PutFailed);
                }
            }
        }
    }
    Err(PutFailed)
}
