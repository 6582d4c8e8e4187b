use super::*;
use bench_reader::{BenchCause, BenchFault, read};
use checks::Verdict;
use netlist::Netlist;
use spec_grammar::{SpecCause, SpecFault};
use std::alloc::{AllocError, Global};
use std::process::Abort;
use std::test::Fail;
use word_base::{Assign, Weight};

fn two_inputs(rt: &(impl Abort + AllocGlobal)) -> Netlist {
    read(rt.alloc(), b"INPUT(a)\nINPUT(b)\n").expect(rt, "two inputs")
}

fn two_bits(alloc: Global, first: bool, second: bool) -> Result<Assign, AllocError> {
    let mut bits = Assign::new(alloc, 2)?;
    bits.set(0, first);
    bits.set(1, second);
    Ok(bits)
}

fn different(left: i128, right: i128, at: Assign) -> Result<Verdict, Fail> {
    let left = Weight::new(left).ok_or("the left value is a weight")?;
    let right = Weight::new(right).ok_or("the right value is a weight")?;
    Ok(Verdict::Different { left, right, at })
}

#[test]
fn each_check_has_a_line(rt: HostRuntime) -> Result<(), Fail> {
    let netlist = two_inputs(&rt);
    assert_eq!(rt; netlist.inputs(), 2);
    let alloc = rt.alloc();
    let verdicts = [
        Verdict::Equal { nodes: 12 },
        different(-1, i128::MAX, two_bits(alloc, false, true)?)?,
        Verdict::Overflow,
        Verdict::Full,
    ];
    let written = verdict_lines(alloc, &netlist, &[0, 1], &verdicts)?;
    assert_eq!(rt;
        written.as_str(),
        "check 1 equal nodes 12\ncheck 2 different left -1 right 170141183460469231731687303715884105727 at a=0 b=1\ncheck 3 overflow\ncheck 4 full\n"
    );
    Ok(())
}

#[test]
fn a_refusal_has_its_line(rt: HostRuntime) -> Result<(), Fail> {
    let fault = BenchFault {
        line: 3,
        cause: BenchCause::DuplicateNet,
    };
    let written = refusal_line(rt.alloc(), &Refusal::Netlist(fault))?;
    assert_eq!(rt; written.as_str(), "refused netlist 3 duplicate-net\n");
    let fault = SpecFault {
        line: 0,
        cause: SpecCause::NoCheck,
    };
    let written = refusal_line(rt.alloc(), &Refusal::Spec(fault))?;
    assert_eq!(rt; written.as_str(), "refused spec 0 no-check\n");
    Ok(())
}
