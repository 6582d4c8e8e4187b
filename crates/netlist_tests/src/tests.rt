ghost use Rattle.std.specs.Prelude.{◌<◌};
ghost use Rattle.circuits.specs.Circuit.{IsGate, net_count};

use netlist::{GateWord, NetCause, NetError, NetFault, Netlist, NetlistMaker};
use std::alloc::AllocError;
use std::process::Abort;
use std::test::Fail;
use word_base::Assign;

fn fault(at: u32, cause: NetCause) -> Option<NetError> {
    Some(NetError::Fault(NetFault { at, cause }))
}

/// Adds an input, and answers the error, if there is one. Like all helpers here it promises nothing, so that a test
/// has few facts to go through.
fn add_input(maker: &mut NetlistMaker, name: &str) -> Option<NetError> {
    maker.add_input(name).err()
}

fn add_gate(
    rt: &impl Abort,
    maker: &mut NetlistMaker,
    name: &str,
    word: GateWord,
    inputs: &[&str],
) -> Option<NetError> {
    match word {
        GateWord::Not | GateWord::Buff => assert!(rt; inputs.len() == 1),
        _ => assert!(rt; inputs.len() > 0),
    }
    maker.add_gate(name, word, inputs).err()
}

fn add_output(maker: &mut NetlistMaker, name: &str) -> Option<NetError> {
    maker.add_output(name).err()
}

fn finish(maker: NetlistMaker) -> Result<Netlist, NetError> {
    maker.finish()
}

/// The netlist of inputs, gates and outputs, which are added in this order.
fn netlist_of(
    rt: &(impl Abort + AllocGlobal),
    inputs: &[&str],
    gates: &[(&str, GateWord, &[&str])],
    outputs: &[&str],
) -> Result<Netlist, NetError> {
    let mut maker = NetlistMaker::new(rt.alloc());
    for name in inputs.iter() {
        assert_eq!(rt; add_input(&mut maker, name), None);
    }
    for (name, word, read) in gates.iter() {
        assert_eq!(rt; add_gate(rt, &mut maker, name, *word, read), None);
    }
    for name in outputs.iter() {
        assert_eq!(rt; add_output(&mut maker, name), None);
    }
    finish(maker)
}

/// The half adder of the nets a and b, 0 and 1: its sum is 2, its carry 3.
fn half_adder(rt: &(impl Abort + AllocGlobal)) -> Result<Netlist, NetError> {
    let gates: [(&str, GateWord, &[&str]); 2] = [
        ("s", GateWord::Xor, &["a", "b"]),
        ("c", GateWord::And, &["a", "b"]),
    ];
    netlist_of(rt, &["a", "b"], &gates, &["s", "c", "s"])
}

/// How many inputs there are, and how many gates.
fn sizes(netlist: &Netlist) -> (u32, u32) {
    (netlist.inputs(), netlist.gates())
}

fn assert_net(rt: &impl Abort, netlist: &Netlist, net: u32)
    ensures { net < net_count netlist.now }
{
    let inputs = netlist.inputs();
    assert!(rt; net < inputs || net - inputs < netlist.gates());
}

fn assert_gate(rt: &impl Abort, netlist: &Netlist, net: u32)
    ensures { IsGate netlist.now net }
{
    assert_net(rt, netlist, net);
    assert!(rt; netlist.inputs() <= net);
}

fn name_of<'a>(rt: &impl Abort, netlist: &'a Netlist, net: u32) -> &'a str {
    assert_net(rt, netlist, net);
    netlist.name(net)
}

fn gate_of<'a>(rt: &impl Abort, netlist: &'a Netlist, net: u32) -> (GateWord, &'a [u32]) {
    assert_gate(rt, netlist, net);
    netlist.gate(net)
}

fn net_of(netlist: &Netlist, name: &str) -> Option<u32> {
    netlist.find(name)
}

fn outputs_of(netlist: &Netlist) -> &[u32] {
    netlist.outputs()
}

fn order_of(netlist: &Netlist) -> &[u32] {
    netlist.topological()
}

fn cone_of(rt: &impl Abort, netlist: &Netlist, net: u32) -> Result<Vec<u32>, AllocError> {
    assert_net(rt, netlist, net);
    netlist.cone(&[net])
}

fn reached_from(rt: &impl Abort, netlist: &Netlist, net: u32) -> Result<Vec<bool>, AllocError> {
    assert_net(rt, netlist, net);
    netlist.reached(&[net])
}

fn values_of(
    rt: &(impl Abort + AllocGlobal),
    netlist: &Netlist,
    bits: &Assign,
) -> Result<Vec<bool>, AllocError> {
    assert_eq!(rt; bits.len() as u32, netlist.inputs());
    let mut values = Vec::new(rt.alloc());
    netlist.evaluate(bits, &mut values)?;
    Ok(values)
}

/// So many ones.
fn ones(rt: &(impl Abort + AllocGlobal), count: u16) -> Result<Assign, AllocError> {
    let mut bits = Assign::new(rt.alloc(), count)?;
    for place in 0..count {
        assert!(rt; place < bits.len());
        bits.set(place, true);
    }
    Ok(bits)
}

fn check_nets(rt: &impl Abort, found: &[u32], expected: &[u32]) {
    assert_eq!(rt; found, expected);
}

fn check_bits(rt: &impl Abort, found: &[bool], expected: &[bool]) {
    assert_eq!(rt; found, expected);
}

fn check_gate(rt: &impl Abort, netlist: &Netlist, net: u32, word: GateWord, inputs: &[u32]) {
    let (found, read) = gate_of(rt, netlist, net);
    assert_eq!(rt; found, word);
    check_nets(rt, read, inputs);
}

#[test]
fn the_half_adder_has_its_nets(rt: HostRuntime) -> Result<(), Fail> {
    let netlist = half_adder(&rt)?;
    assert_eq!(rt; sizes(&netlist), (2, 2));
    assert_eq!(rt; name_of(&rt, &netlist, 3), "c");
    check_gate(&rt, &netlist, 3, GateWord::And, &[0, 1]);
    Ok(())
}

#[test]
fn the_half_adder_is_read(rt: HostRuntime) -> Result<(), Fail> {
    let netlist = half_adder(&rt)?;
    for (name, net) in [("s", Some(2)), ("t", None)] {
        assert_eq!(rt; net_of(&netlist, name), net, "{name}");
    }
    check_nets(&rt, outputs_of(&netlist), &[2, 3]);
    check_nets(&rt, order_of(&netlist), &[2, 3]);
    Ok(())
}

#[test]
fn the_carry_has_its_cone(rt: HostRuntime) -> Result<(), Fail> {
    let netlist = half_adder(&rt)?;
    let cone = cone_of(&rt, &netlist, 3)?;
    check_nets(&rt, cone.as_slice(), &[3]);
    let reached = reached_from(&rt, &netlist, 3)?;
    check_bits(&rt, reached.as_slice(), &[true, true, false, true]);
    Ok(())
}

#[test]
fn the_half_adder_is_evaluated(rt: HostRuntime) -> Result<(), Fail> {
    let netlist = half_adder(&rt)?;
    let values = values_of(&rt, &netlist, &ones(&rt, 2)?)?;
    check_bits(&rt, values.as_slice(), &[true, true, false, true]);
    Ok(())
}

#[test]
fn nets_may_be_named_before_they_are_defined(rt: HostRuntime) -> Result<(), Fail> {
    let gates: [(&str, GateWord, &[&str]); 2] = [
        ("z", GateWord::And, &["y", "a"]),
        ("y", GateWord::Not, &["a"]),
    ];
    let netlist = netlist_of(&rt, &["a"], &gates, &["z"])?;
    check_nets(&rt, order_of(&netlist), &[2, 1]);
    Ok(())
}

/// A maker of the input a, to which one too long and a second a were given.
fn after_refusals(rt: &(impl Abort + AllocGlobal)) -> NetlistMaker {
    let mut maker = NetlistMaker::new(rt.alloc());
    let long = "x123456789012345678901234567890123456789012345678901234567890123y";
    for (name, error) in [
        (long, fault(1, NetCause::TooLarge)),
        ("a", None),
        ("a", fault(3, NetCause::DuplicateNet)),
    ] {
        assert_eq!(rt; add_input(&mut maker, name), error, "{name}");
    }
    maker
}

#[test]
fn refused_calls_count(rt: HostRuntime) {
    let mut maker = after_refusals(&rt);
    let added = add_gate(&rt, &mut maker, "x", GateWord::And, &["x", "a"]);
    assert_eq!(rt; added, None);
    assert_eq!(rt; add_output(&mut maker, "x"), None);
    assert_eq!(rt; finish(maker).err(), fault(4, NetCause::Cycle));
}

#[test]
fn an_undefined_output_has_its_call(rt: HostRuntime) {
    let netlist = netlist_of(&rt, &["a"], &[], &["y"]);
    assert_eq!(rt; netlist.err(), fault(2, NetCause::UndefinedNet));
}

/// A maker of the inputs 0 to 255.
fn full_of_inputs(rt: &(impl Abort + AllocGlobal)) -> NetlistMaker {
    let mut maker = NetlistMaker::new(rt.alloc());
    for number in 0..256u32 {
        let name = number.to_string(rt.alloc()).expect(rt, "memory");
        assert_eq!(rt; add_input(&mut maker, name.as_str()), None);
    }
    maker
}

/// Adds the OR of so many times the input 0.
fn add_wide(
    rt: &(impl Abort + AllocGlobal),
    maker: &mut NetlistMaker,
    name: &str,
    count: usize,
) -> Option<NetError> {
    let inputs = vec![in rt.alloc(); "0"; count].expect(rt, "memory");
    add_gate(rt, maker, name, GateWord::Or, inputs.as_slice())
}

#[test]
fn limits_are_kept(rt: HostRuntime) {
    let mut maker = full_of_inputs(&rt);
    assert_eq!(rt;
        add_input(&mut maker, "one more"),
        fault(257, NetCause::TooLarge)
    );
    assert_eq!(rt; add_wide(&rt, &mut maker, "wide", 64), None);
    assert_eq!(rt;
        add_wide(&rt, &mut maker, "wider", 65),
        fault(259, NetCause::TooLarge)
    );
}
