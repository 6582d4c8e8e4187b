ghost use Rattle.std.specs.Prelude.{◌≡◌, ◌≤◌, length, IfOk, IfErr, Ok};
ghost use Rattle.bench_reader.specs.Reading.{IsFaultOf, reading};
ghost use Rattle.texts.specs.declared.limits.TheConstants.{MOST_BYTES};

use crate::fault::{BenchError, BenchFault, bench_cause};
use crate::gather::{Gathered, gather};
use netlist::{NetError, Netlist};
use std::alloc::Global;

/// The netlist that the bytes say, or their first fault. Its inputs are those of the INPUT lines, its
/// gates those of the gate lines and its outputs those of the OUTPUT lines, in order.
pub fn read(alloc: Global, bytes: &[u8]) -> Result<Netlist, BenchError>
    requires { length bytes.now ≤ MOST_BYTES }
    ensures netlist { IfOk result (λ netlist. reading bytes.now ≡ Ok netlist) }
    ensures fault { IfErr result (λ error. IsFaultOf error (reading bytes.now)) }
{
    let Gathered { maker, saying } = gather(alloc, bytes)?;
    match maker.finish() {
        Ok(netlist) => Ok(netlist),
        Err(NetError::Fault(fault)) => {
            let line = saying[fault.at as usize - 1];
            let cause = bench_cause(fault.cause);
            Err(BenchError::Fault(BenchFault { line, cause }))
        }
        Err(NetError::Memory) => Err(BenchError::Memory),
    }
}
