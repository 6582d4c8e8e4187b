ghost use Rattle.std.specs.Prelude.{◌≤◌};

use super::*;
use crate::adders::gates;
use crate::gate::Operation;
use crate::net::Net;
use crate::nets::product;
use std::alloc::Global;
use std::test::Fail;

const NETLIST_OF_TWO: &str = "\
INPUT(a0)
INPUT(a1)
INPUT(b0)
INPUT(b1)
OUTPUT(p0_0)
OUTPUT(s1_0)
OUTPUT(s1_1)
OUTPUT(c1_1)
p0_0 = AND(a0, b0)
p1_0 = AND(a1, b0)
p0_1 = AND(a0, b1)
p1_1 = AND(a1, b1)
s1_0 = XOR(p0_1, p1_0)
c1_0 = AND(p0_1, p1_0)
s1_1 = XOR(p1_1, c1_0)
c1_1 = AND(p1_1, c1_0)
";

const SPECIFICATION_OF_TWO: &str = "\
word a = a0 a1
word b = b0 b1
word m = p0_0 s1_0 s1_1 c1_1
check m == a * b
";

#[test]
fn two_bits_have_eight_gates(rt: HostRuntime) -> Result<(), Fail> {
    let (netlist, specification) = generate(rt.alloc(), 2)?;
    assert_eq!(rt; netlist.as_slice(), NETLIST_OF_TWO.as_bytes());
    assert_eq!(rt; specification.as_slice(), SPECIFICATION_OF_TWO.as_bytes());
    Ok(())
}

#[test]
fn inputs_and_gates_are_counted(rt: HostRuntime) {
    assert_eq!(rt; (input_count(2), gate_count(2)), (4, 8));
    assert_eq!(rt; (input_count(3), gate_count(3)), (6, 30));
    assert_eq!(rt; (input_count(16), gate_count(16)), (32, 1408));
}

fn line_count(text: &[u8]) -> usize {
    text.iter().filter(|b| **b == b'\n').count()
}

#[test]
fn each_input_output_and_gate_has_a_line(rt: HostRuntime) -> Result<(), Fail> {
    let (netlist, specification) = generate(rt.alloc(), 3)?;
    assert_eq!(rt;
        (line_count(&netlist), line_count(&specification)),
        (6 + 6 + 30, 4)
    );
    let (netlist, specification) = generate(rt.alloc(), 16)?;
    assert_eq!(rt;
        (line_count(&netlist), line_count(&specification)),
        (32 + 32 + 1408, 4)
    );
    Ok(())
}

fn value_of(known: &[(Net, bool)], net: Net) -> Result<bool, Fail> {
    for (other, value) in known {
        if *other == net {
            return Ok(*value);
        }
    }
    Err("the net has no value yet".into())
}

/// The product that the gates compute in their order.
fn computed(alloc: Global, size: u32, a: u32, b: u32) -> Result<u32, Fail>
    requires not_below { 2 ≤ size }
    requires not_above { size ≤ 16 }
{
    let mut known = Vec::new(alloc);
    for bit in 0..size {
        known.push((Net::A(bit), (a >> bit) & 1 == 1))?;
        known.push((Net::B(bit), (b >> bit) & 1 == 1))?;
    }
    for gate in &gates(alloc, size)? {
        let left = value_of(&known, gate.left)?;
        let right = value_of(&known, gate.right)?;
        let value = match gate.operation {
            Operation::And => left && right,
            Operation::Or => left || right,
            Operation::Xor => left != right,
        };
        known.push((gate.net, value))?;
    }
    let mut result = 0;
    for net in product(alloc, size)?.iter().rev() {
        result = result << 1 | u32::from(value_of(&known, *net)?);
    }
    Ok(result)
}

#[test]
fn the_gates_multiply(rt: HostRuntime) -> Result<(), Fail> {
    for a in 0..8 {
        for b in 0..8 {
            assert_eq!(rt; computed(rt.alloc(), 3, a, b)?, a * b, "{a} * {b}");
        }
    }
    for a in 0..16 {
        for b in 0..16 {
            assert_eq!(rt; computed(rt.alloc(), 4, a, b)?, a * b, "{a} * {b}");
        }
    }
    Ok(())
}
