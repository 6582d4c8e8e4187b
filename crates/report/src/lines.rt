ghost use Rattle.std.specs.Prelude.{◌≡◌, ◌<◌, ◌++◌, map, codes, length, All, IfOk, OnOk, string_bytes};
ghost use Rattle.std.specs.Fmt.{signed_decimal};
ghost use Rattle.circuits.specs.Circuit.{net_count, name_of};
ghost use Rattle.report.specs.Lines.{assignment, digit, report, verdict_line, verdict_text};

use checks::Verdict;
use netlist::Netlist;
use std::alloc::{AllocError, Global};
use word_base::{Assign, Weight};

/// The line of each check, which are counted from 1: its number, what is answered and, where the sides differ, the
/// bit of each input of `order` by name. `order` has the inputs from the top level down.
///
/// `Err` is want of memory.
pub fn verdict_lines(
    alloc: Global,
    netlist: &Netlist,
    order: &[u32],
    verdicts: &[Verdict],
) -> Result<String, AllocError>
    requires { All (λ net. net < net_count netlist.now) order.now }
    ensures { IfOk result (λ text. string_bytes text
        ≡ report (map (name_of netlist.now) order.now) verdicts.now) }
{
    let mut text = String::new(alloc);
    for place in 0..verdicts.len() {
        push_line(&mut text, place + 1, netlist, order, &verdicts[place])?;
    }
    Ok(text)
}

/// Appends the line of a check.
fn push_line(
    text: &mut String,
    number: usize,
    netlist: &Netlist,
    order: &[u32],
    verdict: &Verdict,
) -> Result<(), AllocError>
    requires { All (λ net. net < net_count netlist.now) order.now }
    ensures { OnOk result (string_bytes text.new ≡ string_bytes text.old
        ++ verdict_line number (map (name_of netlist.now) order.now) verdict.now) }
{
    write!(text, "check {number} ")?;
    push_verdict(text, netlist, order, verdict)?;
    text.push('\n')
}

/// Appends what is said of a check.
fn push_verdict(
    text: &mut String,
    netlist: &Netlist,
    order: &[u32],
    verdict: &Verdict,
) -> Result<(), AllocError>
    requires { All (λ net. net < net_count netlist.now) order.now }
    ensures { OnOk result (string_bytes text.new ≡ string_bytes text.old
        ++ verdict_text (map (name_of netlist.now) order.now) verdict.now) }
{
    match verdict {
        Verdict::Equal { nodes } => write!(text, "equal nodes {nodes}"),
        Verdict::Different { left, right, at } => {
            push_values(text, left, right)?;
            push_assignment(text, netlist, order, at)
        }
        Verdict::Overflow => text.push_str("overflow"),
        Verdict::Full => text.push_str("full"),
    }
}

/// Appends the values of both sides, up to where the assignment follows.
fn push_values(text: &mut String, left: &Weight, right: &Weight) -> Result<(), AllocError>
    ensures { OnOk result (string_bytes text.new ≡ string_bytes text.old
        ++ (codes "different left " ++ signed_decimal left.now
        ++ codes " right " ++ signed_decimal right.now ++ codes " at")) }
{
    let left = left.get();
    let right = right.get();
    write!(text, "different left {left} right {right} at")?;
    Ok(())
}

/// Appends the name and the bit of each input.
fn push_assignment(
    text: &mut String,
    netlist: &Netlist,
    order: &[u32],
    at: &Assign,
) -> Result<(), AllocError>
    requires { All (λ net. net < net_count netlist.now) order.now }
    ensures { OnOk result (string_bytes text.new ≡ string_bytes text.old
        ++ assignment (map (name_of netlist.now) order.now) at.now) }
{
    let count = order.len().min(at.len() as usize);
    for place in 0..count {
        push_bit(text, netlist.name(order[place]), at.get(place as u16))?;
    }
    Ok(())
}

/// Appends the name of an input and its bit.
fn push_bit(text: &mut String, name: &str, bit: bool) -> Result<(), AllocError>
    ensures { OnOk result (string_bytes text.new ≡ string_bytes text.old
        ++ (codes " " ++ name.now ++ codes "=" ++ digit bit)) }
{
    let digit = if bit { "1" } else { "0" };
    write!(text, " {name}={digit}")
}
