ghost use Rattle.std.specs.Prelude.{◌≡◌, length, IfOk};
ghost use Rattle.spec_lang.specs.Specification.{half_adder, half_adder_check, single, sum_is_zero};
ghost use Rattle.spec_lang.specs.WellFormed.{IsOver};

use super::*;
use netlist::{GateWord, Netlist, NetlistMaker};
use std::alloc::{AllocError, Global};
use std::process::Abort;
use std::test::Fail;
use word_base::{Assign, Decomp, Weight};

/// The inputs a and b, and the gates s = XOR(a, b) and c = AND(a, b).
fn half_adder(rt: &impl Abort, alloc: Global) -> Netlist
    ensures { IsOver result half_adder }
{
    let mut maker = NetlistMaker::new(alloc);
    maker.add_input("a").expect(rt, "an input");
    maker.add_input("b").expect(rt, "an input");
    maker
        .add_gate("s", GateWord::Xor, &["a", "b"])
        .expect(rt, "a gate");
    maker
        .add_gate("c", GateWord::And, &["a", "b"])
        .expect(rt, "a gate");
    let netlist = maker.finish().expect(rt, "a netlist");
    assert!(rt; netlist.inputs() == 2);
    assert!(rt; netlist.gates() == 2);
    netlist
}

fn single(alloc: Global, name: &str, net: u32) -> Result<Word, AllocError>
    ensures { IfOk result (λ word. word ≡ single name.now net) }
{
    Ok(Word::new(name.to_string(alloc)?, vec![in alloc; net]?))
}

/// s + 2*c == a + b, where the words a, b, s, c have the numbers 0 to 3.
fn half_adder_check(alloc: Global) -> Result<Check, AllocError>
    ensures { IfOk result (λ check. check ≡ half_adder_check) }
{
    let twice = Expr::mul(alloc, Expr::Number(Weight::TWO), Expr::Word(3))?;
    let left = Expr::add(alloc, Expr::Word(2), twice)?;
    let right = Expr::add(alloc, Expr::Word(0), Expr::Word(1))?;
    Ok(Check::new(left, right))
}

/// That check of the half adder.
fn half_adder_spec(alloc: Global) -> Result<Spec, AllocError>
    ensures { IfOk result (λ spec. spec ≡ half_adder) }
{
    let words = vec![in alloc;
        single(alloc, "a", 0)?,
        single(alloc, "b", 1)?,
        single(alloc, "s", 2)?,
        single(alloc, "c", 3)?,
    ]?;
    let letters = vec![in alloc; Decomp::P, Decomp::P]?;
    let checks = vec![in alloc; half_adder_check(alloc)?]?;
    Ok(Spec::new(input_order(alloc, 2)?, letters, words, checks))
}

/// left + right == 0, over two inputs and no words.
fn sum_spec(alloc: Global, left: Weight, right: Weight) -> Result<Spec, AllocError>
    ensures { IfOk result (λ spec. spec ≡ sum_is_zero left right) }
{
    let left = Expr::add(alloc, Expr::Number(left), Expr::Number(right))?;
    let checks = vec![in alloc; Check::new(left, Expr::Number(Weight::ZERO))]?;
    let letters = vec![in alloc; Decomp::P, Decomp::P]?;
    Ok(Spec::new(input_order(alloc, 2)?, letters, Vec::new(alloc), checks))
}

fn two_ones(alloc: Global) -> Result<Assign, AllocError>
    ensures { IfOk result (λ bits. length bits ≡ 2) }
{
    let mut bits = Assign::new(alloc, 2)?;
    bits.set(0, true);
    bits.set(1, true);
    Ok(bits)
}

#[test]
fn half_adder_is_evaluated(rt: HostRuntime) -> Result<(), Fail> {
    let netlist = half_adder(&rt, rt.alloc());
    let spec = half_adder_spec(rt.alloc())?;
    let ones = two_ones(rt.alloc())?;
    let (left, right) = spec.evaluate(0, &netlist, &ones)?;
    assert_eq!(rt; (left.get(), right.get()), (2, 2));
    Ok(())
}

#[test]
fn words_and_nets_come_by_first_naming(rt: HostRuntime) -> Result<(), Fail> {
    let spec = half_adder_spec(rt.alloc())?;
    let words = spec.words_named(0)?;
    assert_eq!(rt; words.as_slice(), [2, 3, 0, 1].as_slice());
    let nets = spec.named(0)?;
    assert_eq!(rt; nets.as_slice(), [2, 3, 0, 1].as_slice());
    Ok(())
}

#[test]
fn sums_end_at_the_greatest_weight(rt: HostRuntime) -> Result<(), Fail> {
    let netlist = half_adder(&rt, rt.alloc());
    let ones = two_ones(rt.alloc())?;
    let rows = [
        (Weight::ZERO, Ok((Weight::MAX, Weight::ZERO))),
        (Weight::ONE, Err(EvalError::Overflow)),
    ];
    for (more, sides) in rows {
        let spec = sum_spec(rt.alloc(), Weight::MAX, more)?;
        assert_eq!(rt; spec.evaluate(0, &netlist, &ones), sides);
    }
    Ok(())
}
