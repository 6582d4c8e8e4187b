use bench_reader::{BenchCause, BenchError, BenchFault, read};
use netlist::Netlist;
use std::alloc::{AllocError, Global};
use std::process::Abort;
use std::test::Fail;
use texts::MOST_BYTES;

fn outcome(rt: &(impl Abort + AllocGlobal), bytes: &[u8]) -> Result<Netlist, BenchError> {
    assert!(rt; bytes.len() <= MOST_BYTES);
    read(rt.alloc(), bytes)
}

/// The line and the cause of the first fault, and line 0 where there is none.
fn fault(rt: &(impl Abort + AllocGlobal), bytes: &[u8]) -> (u32, Option<BenchCause>) {
    match outcome(rt, bytes) {
        Ok(_) => (0, None),
        Err(BenchError::Fault(fault)) => (fault.line, Some(fault.cause)),
        Err(BenchError::Memory) => panic!(rt; "out of memory"),
    }
}

/// The netlist of a text that has no fault. Like the other helpers it promises nothing, so that a test has few facts
/// to go through.
fn netlist_of(rt: &(impl Abort + AllocGlobal), bytes: &[u8]) -> Netlist {
    outcome(rt, bytes).expect(rt, "no fault")
}

/// How many inputs there are, and how many gates.
fn sizes(netlist: &Netlist) -> (u32, u32) {
    (netlist.inputs(), netlist.gates())
}

fn outputs_of(netlist: &Netlist) -> &[u32] {
    netlist.outputs()
}

fn order_of(netlist: &Netlist) -> &[u32] {
    netlist.topological()
}

fn net_of(netlist: &Netlist, name: &str) -> Option<u32> {
    netlist.find(name)
}

#[test]
fn the_first_fault_decides(rt: HostRuntime) {
    let rows: [(&[u8], u32, BenchCause); 5] = [
        (
            b"INPUT(a)\n\n# comment\nx = AND(y, a)\ny = OR(x, a)\nz = NOT(w)\n",
            6,
            BenchCause::UndefinedNet,
        ),
        (
            b"INPUT(a)\r\n\r\n# comment\r\ny = BUF(x)\r\nx = AND(y, a)\r\n",
            4,
            BenchCause::Cycle,
        ),
        (
            b"a = NOT(b)\nb = NOT(c)\nc = NOT(b)\nINPUT(d)",
            2,
            BenchCause::Cycle,
        ),
        (
            b"INPUT(a)\nINPUT(b)\nOUTPUT(s)\nOUTPUT(c)\ns = XOR(a, b)\n",
            4,
            BenchCause::UndefinedNet,
        ),
        (
            b"INPUT(a)\nINPUT(b)\nOUTPUT(s)\nOUTPUT(c)\ns = XOR(a, b)\nc = AND(a",
            6,
            BenchCause::BadLine,
        ),
    ];
    for (bytes, line, cause) in rows.iter() {
        assert_eq!(rt; fault(&rt, bytes), (*line, Some(*cause)), "{bytes:?}");
    }
}

#[test]
fn a_line_has_its_fault(rt: HostRuntime) {
    let rows: [(&[u8], u32, BenchCause); 9] = [
        (b"INPUT a", 1, BenchCause::BadLine),
        (b"INPUT(a b)", 1, BenchCause::BadLine),
        (b"FANOUT(a)", 1, BenchCause::BadLine),
        (b"INPUT(a\x7f)", 1, BenchCause::BadLine),
        (b"z = MUX(a, b)", 1, BenchCause::UnknownGate),
        (b"z = AND()", 1, BenchCause::BadArity),
        (b"z = BUF(a, b)", 1, BenchCause::BadArity),
        (b"# \xff\nINPUT(\xc3)", 2, BenchCause::NotAscii),
        (b"z = FOO(\xff", 1, BenchCause::NotAscii),
    ];
    for (bytes, line, cause) in rows.iter() {
        assert_eq!(rt; fault(&rt, bytes), (*line, Some(*cause)), "{bytes:?}");
    }
}

#[test]
fn the_half_adder_is_read(rt: HostRuntime) {
    let half = b"INPUT(a)\nINPUT(b)\nOUTPUT(s)\nOUTPUT(c)\ns = XOR(a, b)\nc = AND(a, b)\n";
    let netlist = netlist_of(&rt, half);
    assert_eq!(rt; sizes(&netlist), (2, 2));
    assert_eq!(rt; outputs_of(&netlist), [2u32, 3].as_slice());
    for (name, net) in [("b", Some(1)), ("s", Some(2)), ("t", None)] {
        assert_eq!(rt; net_of(&netlist, name), net, "{name}");
    }
}

#[test]
fn a_net_may_be_named_before_its_line(rt: HostRuntime) {
    let late = netlist_of(&rt, b"INPUT(a)\nz = AND(y, a)\ny = NOT(a)");
    assert_eq!(rt; order_of(&late), [2u32, 1].as_slice());
}

#[test]
fn white_space_is_skipped_and_inputs_may_be_outputs(rt: HostRuntime) {
    let text =
        b"INPUT(a)\r\nOUTPUT(b)\r\nINPUT(b)\r\nOUTPUT(y)\r\n\tOutput ( b ) \r\ny=Buf( a )#\xff\r\n";
    let spaced = netlist_of(&rt, text);
    assert_eq!(rt; outputs_of(&spaced), [1u32, 2].as_slice());
}

#[test]
fn no_lines_are_no_nets(rt: HostRuntime) {
    let empty = netlist_of(&rt, b"");
    assert_eq!(rt; sizes(&empty), (0, 0));
}

#[test]
fn c17_is_read(rt: HostRuntime) {
    let c17 = b"INPUT(1)\nINPUT(2)\nINPUT(3)\nINPUT(6)\nINPUT(7)\nOUTPUT(22)\nOUTPUT(23)\n\
        10 = NAND(1, 3)\n11 = NAND(3, 6)\n16 = NAND(2, 11)\n19 = NAND(11, 7)\n\
        22 = NAND(10, 16)\n23 = NAND(16, 19)\n";
    let netlist = netlist_of(&rt, c17);
    assert_eq!(rt; sizes(&netlist), (5, 6));
    assert_eq!(rt; outputs_of(&netlist), [9u32, 10].as_slice());
}

fn many_inputs(alloc: Global, count: u32) -> Result<String, AllocError> {
    let mut text = String::new(alloc);
    for i in 0..count {
        write!(text, "INPUT(i{i})\n")?;
    }
    Ok(text)
}

fn many_gates(alloc: Global, count: u32) -> Result<String, AllocError> {
    let mut text = String::from_str(alloc, "INPUT(a)\n")?;
    for i in 0..count {
        write!(text, "g{i} = NOT(a)\n")?;
    }
    Ok(text)
}

fn wide_gate(alloc: Global, count: u32) -> Result<String, AllocError> {
    let mut text = String::from_str(alloc, "z = OR(a")?;
    for _ in 1..count {
        text.push_str(", a")?;
    }
    text.push_str(")\nINPUT(a)")?;
    Ok(text)
}

fn long_name(alloc: Global, count: u32) -> Result<String, AllocError> {
    let mut text = String::from_str(alloc, "INPUT(a)\nINPUT(")?;
    for _ in 0..count {
        text.push('x')?;
    }
    text.push(')')?;
    Ok(text)
}

/// The fault of a text that there was memory for.
fn fault_of(
    rt: &(impl Abort + AllocGlobal),
    text: Result<String, AllocError>,
) -> (u32, Option<BenchCause>) {
    let text = text.expect(rt, "memory");
    fault(rt, text.as_bytes())
}

#[test]
fn inputs_have_their_limit(rt: HostRuntime) {
    let too_large = Some(BenchCause::TooLarge);
    for (count, expected) in [(256, (0, None)), (257, (257, too_large))] {
        assert_eq!(rt;
            fault_of(&rt, many_inputs(rt.alloc(), count)),
            expected,
            "{count}"
        );
    }
}

#[test]
fn gates_have_their_limit(rt: HostRuntime) {
    let too_large = Some(BenchCause::TooLarge);
    for (count, expected) in [(4096, (0, None)), (4097, (4098, too_large))] {
        assert_eq!(rt;
            fault_of(&rt, many_gates(rt.alloc(), count)),
            expected,
            "{count}"
        );
    }
}

#[test]
fn a_gate_has_its_limit(rt: HostRuntime) {
    let too_large = Some(BenchCause::TooLarge);
    for (count, expected) in [(64, (0, None)), (65, (1, too_large))] {
        assert_eq!(rt;
            fault_of(&rt, wide_gate(rt.alloc(), count)),
            expected,
            "{count}"
        );
    }
}

#[test]
fn a_name_has_its_limit(rt: HostRuntime) {
    let too_large = Some(BenchCause::TooLarge);
    for (count, expected) in [(64, (0, None)), (65, (2, too_large))] {
        assert_eq!(rt;
            fault_of(&rt, long_name(rt.alloc(), count)),
            expected,
            "{count}"
        );
    }
}

fn printed(alloc: Global, error: BenchError) -> Result<String, AllocError> {
    format!(in alloc; "{error}")
}

#[test]
fn an_error_is_printed(rt: HostRuntime) -> Result<(), Fail> {
    let error = BenchError::Fault(BenchFault {
        line: 1_048_577,
        cause: BenchCause::Sequential,
    });
    assert_eq!(rt; printed(rt.alloc(), error)?.as_str(), "1048577 sequential");
    Ok(())
}
