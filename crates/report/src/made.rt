ghost use Rattle.std.specs.Prelude.{◌≡◌, IfOk, string_bytes};
ghost use Rattle.report.specs.Made.{made_line};

use std::alloc::{AllocError, Global};

/// The line of a multiplier that was made: its size, and how many inputs and gates its netlist has.
///
/// `Err` is want of memory.
pub fn made_line(alloc: Global, size: u32, inputs: u32, gates: u32) -> Result<String, AllocError>
    ensures { IfOk result (λ text. string_bytes text ≡ made_line size inputs gates) }
{
    let mut text = String::new(alloc);
    writeln!(text, "gen {size} inputs {inputs} gates {gates}")?;
    Ok(text)
}
