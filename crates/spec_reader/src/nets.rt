ghost use Rattle.std.specs.Prelude.{◌≡◌, ◌<◌, ◌&&◌, ◌||◌, ◌==◌, not, map, length, true, false, nat_lt, nat_le, Some, None, if◌then◌else◌, IfOk, option_map};
ghost use Rattle.std.specs.List.{list_all, list_any};
ghost use Rattle.circuits.specs.Circuit.{input_count};
ghost use Rattle.circuits.specs.Limits.{is_long};
ghost use Rattle.circuits.specs.Names.{is_name_byte};
ghost use Rattle.spec_grammar.specs.Faults.{numbers, has_unknown, has_other_net, has_repetition, lacks_input, is_no_order, has_letter, is_no_split};
ghost use Rattle.spec_grammar.specs.Forms.{are_nets};
ghost use Rattle.spec_reader.specs.Steps.{is_net_list};

use circuits::LONGEST_NAME;
use netlist::Netlist;
use std::alloc::{AllocError, Global};
use texts::as_name;
use word_base::Decomp;

fn is_net(name: &[u8]) -> bool
    ensures { result ≡ list_all is_name_byte name.now }
{
    as_name(name).is_some()
}

fn are_nets(names: &[&[u8]]) -> bool
    ensures { result ≡ list_all (λ name. list_all is_name_byte name.now) names.now }
{
    names.iter().all(|name| is_net(name))
}

/// Whether there are names, and each may be the name of a net.
pub(crate) fn is_net_list(names: &[&[u8]]) -> bool
    ensures { result ≡ is_net_list (map (λ name. name.now) names.now) }
{
    !names.is_empty() && are_nets(names)
}

/// Whether a name is above the limit.
pub(crate) fn is_long(name: &[u8]) -> bool
    ensures { result ≡ is_long name.now }
{
    name.len() > LONGEST_NAME
}

fn is_some_long(names: &[&[u8]]) -> bool
    ensures { result ≡ list_any (λ name. is_long name.now) names.now }
{
    names.iter().any(|name| is_long(name))
}

/// Whether a name is above the limit.
pub(crate) fn has_long_name(names: &[&[u8]]) -> bool
    ensures { result ≡ list_any is_long (map (λ name. name.now) names.now) }
{
    is_some_long(names)
}

/// The numbers of these nets, where the netlist has each.
pub(crate) fn net_numbers(
    alloc: Global,
    netlist: &Netlist,
    names: &[&[u8]],
) -> Result<Option<Vec<u32>>, AllocError>
    requires { are_nets (map (λ name. name.now) names.now) ≡ true }
    ensures { let nets = map (λ name. name.now) names.now
        in IfOk result (λ found. option_map (λ numbers. numbers.items) found
        ≡ (if has_unknown netlist.now nets then None else Some (numbers netlist.now nets))) }
{
    let mut numbers = Vec::with_capacity(alloc, names.len())?;
    for name in names {
        let Some(number) = netlist.find(as_name(name).unwrap()) else {
            return Ok(None);
        };
        numbers.push(number)?;
    }
    Ok(Some(numbers))
}

fn has_other_net(inputs: u32, nets: &[u32]) -> bool
    ensures { result ≡ has_other_net inputs nets.now }
{
    nets.iter().any(|net| inputs <= *net)
}

/// Whether a net stands twice.
fn has_repetition(nets: &[u32]) -> bool
    ensures { result ≡ has_repetition nets.now }
{
    for at in 0..nets.len() {
        if nets[at + 1..].contains(&nets[at]) {
            return true;
        }
    }
    false
}

fn lacks_input(inputs: u32, nets: &[u32]) -> bool
    ensures { result ≡ lacks_input inputs nets.now }
{
    (0..inputs).any(|input| !nets.contains(&input))
}

/// Whether the nets are not each input once.
fn is_no_order(inputs: u32, nets: &[u32]) -> bool
    ensures { result ≡ is_no_order inputs nets.now }
{
    has_other_net(inputs, nets) || has_repetition(nets) || lacks_input(inputs, nets)
}

/// Whether an order was given, or this is none.
pub(crate) fn is_bad_order(given: bool, inputs: u32, nets: &[u32]) -> bool
    ensures { result ≡ (given || is_no_order inputs nets.now) }
{
    given || is_no_order(inputs, nets)
}

fn has_letter(letters: &[(u32, Decomp)], net: u32) -> bool
    ensures { result ≡ has_letter letters.now net }
{
    letters.iter().any(|given| given.0 == net)
}

fn has_one_with_letter(letters: &[(u32, Decomp)], nets: &[u32]) -> bool
    ensures { result ≡ list_any (has_letter letters.now) nets.now }
{
    nets.iter().any(|net| has_letter(letters, *net))
}

/// Whether the nets are not inputs without a letter, each once.
pub(crate) fn is_no_split(inputs: u32, letters: &[(u32, Decomp)], nets: &[u32]) -> bool
    ensures { result ≡ is_no_split inputs letters.now nets.now }
{
    has_other_net(inputs, nets) || has_repetition(nets) || has_one_with_letter(letters, nets)
}
