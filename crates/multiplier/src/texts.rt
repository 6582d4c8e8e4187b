ghost use Rattle.std.specs.Prelude.{◌≡◌, ◌≤◌, ◌++◌, IfOk, OnOk, string_bytes};
ghost use Rattle.std.specs.List.{flat_map};
ghost use Rattle.multiplier.specs.Texts.{between, gate_line, netlist_text, spec_text, word_line};

use crate::adders::gates;
use crate::gate::Gate;
use crate::net::Net;
use crate::nets::{inputs, product, word_a, word_b};
use crate::size::{LEAST_SIZE, MOST_SIZE};
use std::alloc::{AllocError, Global};

/// The texts of the check of a multiplier of two words of `size` bits: its netlist, in the `.bench` format of the ISCAS
/// circuits, and its specification.
///
/// `Err` is want of memory.
pub fn generate(alloc: Global, size: u32) -> Result<(Vec<u8>, Vec<u8>), AllocError>
    requires not_below { LEAST_SIZE ≤ size }
    requires not_above { size ≤ MOST_SIZE }
    ensures netlist { IfOk result (λ texts. texts.0.items ≡ netlist_text size) }
    ensures specification { IfOk result (λ texts. texts.1.items ≡ spec_text size) }
{
    let netlist = netlist_text(alloc, size)?;
    let specification = spec_text(alloc, size)?;
    Ok((netlist.into_bytes(), specification.into_bytes()))
}

fn netlist_text(alloc: Global, size: u32) -> Result<String, AllocError>
    requires { 1 ≤ size }
    ensures { IfOk result (λ text. string_bytes text ≡ netlist_text size) }
{
    let mut text = String::new(alloc);
    push_nets(&mut text, "INPUT(", &inputs(alloc, size)?, ")\n")?;
    push_nets(&mut text, "OUTPUT(", &product(alloc, size)?, ")\n")?;
    push_gates(&mut text, &gates(alloc, size)?)?;
    Ok(text)
}

fn spec_text(alloc: Global, size: u32) -> Result<String, AllocError>
    requires { 1 ≤ size }
    ensures { IfOk result (λ text. string_bytes text ≡ spec_text size) }
{
    let mut text = String::new(alloc);
    push_word(&mut text, "a", &word_a(alloc, size)?)?;
    push_word(&mut text, "b", &word_b(alloc, size)?)?;
    push_word(&mut text, "m", &product(alloc, size)?)?;
    text.push_str("check m == a * b\n")?;
    Ok(text)
}

/// Appends the line of a word, by its nets from the lowest up.
fn push_word(text: &mut String, name: &str, nets: &[Net]) -> Result<(), AllocError>
    ensures { OnOk result (string_bytes text.new
        ≡ string_bytes text.old ++ word_line name.now nets.now) }
{
    write!(text, "word {name} =")?;
    push_nets(text, " ", nets, "")?;
    text.push('\n')
}

/// Appends each net between two texts.
fn push_nets(text: &mut String, before: &str, nets: &[Net], after: &str) -> Result<(), AllocError>
    ensures { OnOk result (string_bytes text.new
        ≡ string_bytes text.old ++ flat_map (between before.now after.now) nets.now) }
{
    for net in nets {
        write!(text, "{before}{net}{after}")?;
    }
    Ok(())
}

/// Appends the line of each gate.
fn push_gates(text: &mut String, gates: &[Gate]) -> Result<(), AllocError>
    ensures { OnOk result (string_bytes text.new
        ≡ string_bytes text.old ++ flat_map gate_line gates.now) }
{
    for gate in gates {
        write!(text, "{gate}\n")?;
    }
    Ok(())
}
