ghost use Rattle.std.specs.Prelude.{IfOk};
ghost use Rattle.spec_lang.specs.WellFormed.{IsOver};

use netlist::{GateWord, Netlist, NetlistMaker};
use spec_grammar::{SpecCause, SpecError, SpecFault};
use spec_lang::Spec;
use spec_reader::read;
use std::alloc::{AllocError, Global};
use std::process::Abort;
use std::test::Fail;
use texts::MOST_BYTES;
use word_base::{Assign, Decomp, KindName};

/// Adds an input. Like most helpers here it promises nothing, so that a test has few facts to go through.
fn add_input(rt: &impl Abort, maker: &mut NetlistMaker, name: &str) {
    maker.add_input(name).expect(rt, "an input");
}

/// Adds a gate of one input or more.
fn add_gate(
    rt: &impl Abort,
    maker: &mut NetlistMaker,
    name: &str,
    word: GateWord,
    inputs: &[&str],
) {
    match word {
        GateWord::Not | GateWord::Buff => assert!(rt; inputs.len() == 1),
        _ => assert!(rt; inputs.len() > 0),
    }
    maker.add_gate(name, word, inputs).expect(rt, "a gate");
}

fn finish(rt: &impl Abort, maker: NetlistMaker) -> Netlist {
    maker.finish().expect(rt, "a netlist")
}

/// The inputs a and b, and the gates s = XOR(a, b) and c = AND(a, b).
fn half_adder(rt: &(impl Abort + AllocGlobal)) -> Netlist {
    let mut maker = NetlistMaker::new(rt.alloc());
    add_input(rt, &mut maker, "a");
    add_input(rt, &mut maker, "b");
    add_gate(rt, &mut maker, "s", GateWord::Xor, &["a", "b"]);
    add_gate(rt, &mut maker, "c", GateWord::And, &["a", "b"]);
    finish(rt, maker)
}

/// The specification of a text, for callers that evaluate it.
fn spec_over(
    rt: &(impl Abort + AllocGlobal),
    bytes: &[u8],
    netlist: &Netlist,
    kind: KindName,
) -> Result<Spec, SpecError>
    ensures { IfOk result (λ spec. IsOver netlist.now spec) }
{
    assert!(rt; bytes.len() <= MOST_BYTES);
    read(rt.alloc(), bytes, netlist, kind)
}

fn outcome(
    rt: &(impl Abort + AllocGlobal),
    bytes: &[u8],
    kind: KindName,
) -> Result<Spec, SpecError> {
    spec_over(rt, bytes, &half_adder(rt), kind)
}

/// The line and the cause of the first fault, and line 1,000 where there is none.
fn fault(
    rt: &(impl Abort + AllocGlobal),
    bytes: &[u8],
    kind: KindName,
) -> (u32, Option<SpecCause>) {
    match outcome(rt, bytes, kind) {
        Ok(_) => (1_000, None),
        Err(SpecError::Fault(fault)) => (fault.line, Some(fault.cause)),
        Err(SpecError::Memory) => panic!(rt; "out of memory"),
    }
}

#[test]
fn the_first_fault_decides(rt: HostRuntime) {
    let rows: [(&[u8], KindName, u32, SpecCause); 12] = [
        (b"", KindName::StarBmd, 0, SpecCause::NoCheck),
        (b"word a = a\n", KindName::StarBmd, 0, SpecCause::NoCheck),
        (
            b"split P a\nword a = a\ncheck a == a\n",
            KindName::Evbdd,
            1,
            SpecCause::SplitNotForKind,
        ),
        (
            b"check 170141183460469231731687303715884105728 == 0\n",
            KindName::StarBmd,
            1,
            SpecCause::NumberTooLarge,
        ),
        (
            b"check a == 0\n",
            KindName::StarBmd,
            1,
            SpecCause::UnknownWord,
        ),
        (b"order a\n", KindName::StarBmd, 1, SpecCause::BadOrder),
        (
            b"check mod == 1\n",
            KindName::StarBmd,
            1,
            SpecCause::BadLine,
        ),
        (
            b"word a = a\n\n# two words\nword a = t",
            KindName::StarBmd,
            4,
            SpecCause::DuplicateWord,
        ),
        (
            b"split N a\nsplit S b a\ncheck 1 == 1\n",
            KindName::Hdd,
            2,
            SpecCause::BadSplit,
        ),
        (
            b"order b a\norder b a\n",
            KindName::StarBmd,
            2,
            SpecCause::BadOrder,
        ),
        (b"order a t\n", KindName::StarBmd, 1, SpecCause::UnknownNet),
        (
            b"check 1 == 1 # \xff\ncheck 1 == \xff\n",
            KindName::StarBmd,
            2,
            SpecCause::BadLine,
        ),
    ];
    for (bytes, kind, line, cause) in rows.iter() {
        assert_eq!(rt;
            fault(&rt, bytes, *kind),
            (*line, Some(*cause)),
            "{bytes:?}"
        );
    }
}

#[test]
fn a_line_has_its_form(rt: HostRuntime) {
    let rows: [&[u8]; 12] = [
        b"order",
        b"order a, b",
        b"split a",
        b"split p a",
        b"word = a",
        b"word 1 = a",
        b"word when = a",
        b"check 1 = 1",
        b"check 1 ==",
        b"check 1 == 1 == 1",
        b"check (1 == 1)",
        b"check 2 2 == 4",
    ];
    for bytes in rows.iter() {
        assert_eq!(rt;
            fault(&rt, bytes, KindName::Hdd),
            (1, Some(SpecCause::BadLine)),
            "{bytes:?}"
        );
    }
}

fn order_of(spec: &Spec) -> &[u32] {
    spec.order()
}

fn check_nets(rt: &impl Abort, found: &[u32], expected: &[u32]) {
    assert_eq!(rt; found, expected);
}

/// How many words there are, and how many checks.
fn sizes(spec: &Spec) -> (u32, u32) {
    (spec.words(), spec.checks())
}

fn letter_of(rt: &impl Abort, spec: &Spec, level: u32) -> Decomp {
    assert!(rt; (level as usize) < spec.order().len());
    spec.letter(level)
}

fn nets_of_word<'a>(rt: &impl Abort, spec: &'a Spec, word: u32) -> &'a [u32] {
    assert!(rt; word < spec.words());
    spec.word(word)
}

fn nets_of_check(rt: &impl Abort, spec: &Spec, check: u32) -> Vec<u32> {
    assert!(rt; check < spec.checks());
    spec.named(check).expect(rt, "memory")
}

#[test]
fn a_text_is_its_specification(rt: HostRuntime) -> Result<(), Fail> {
    let text =
        b"# half\r\nword w=a s\r\n\tcheck w - -w == 2*(w)\r\norder b a\nsplit N a\nword x = b";
    let spec = outcome(&rt, text, KindName::Hdd)?;
    check_nets(&rt, order_of(&spec), &[1, 0]);
    for (level, letter) in [(0, Decomp::P), (1, Decomp::N)] {
        assert_eq!(rt; letter_of(&rt, &spec, level), letter, "level {level}");
    }
    assert_eq!(rt; sizes(&spec), (2, 1));
    check_nets(&rt, nets_of_word(&rt, &spec, 0), &[0, 2]);
    Ok(())
}

const ADDER: &[u8] = b"word a = a\nword b = b\nword s = s\nword c = c\ncheck s + 2*c == a + b\n";

#[test]
fn the_half_adder_is_read(rt: HostRuntime) -> Result<(), Fail> {
    let spec = outcome(&rt, ADDER, KindName::StarBmd)?;
    check_nets(&rt, order_of(&spec), &[0, 1]);
    assert_eq!(rt; sizes(&spec).1, 1);
    let nets = nets_of_check(&rt, &spec, 0);
    check_nets(&rt, nets.as_slice(), &[2, 3, 0, 1]);
    Ok(())
}

/// So many ones.
fn ones(rt: &(impl Abort + AllocGlobal), count: u16) -> Assign {
    let mut bits = Assign::new(rt.alloc(), count).expect(rt, "memory");
    for place in 0..count {
        assert!(rt; place < bits.len());
        bits.set(place, true);
    }
    bits
}

/// The values of the first check's sides.
fn sides_at(rt: &impl Abort, netlist: &Netlist, spec: &Spec, at: &Assign) -> (i128, i128)
    requires { IsOver netlist.now spec.now }
{
    assert!(rt; 0 < spec.checks());
    assert!(rt; at.len() as usize == spec.order().len());
    let (left, right) = spec.evaluate(0, netlist, at).expect(rt, "values");
    (left.get(), right.get())
}

/// The same over the half adder.
fn sides_of(rt: &(impl Abort + AllocGlobal), text: &[u8], at: &Assign) -> (i128, i128) {
    let netlist = half_adder(rt);
    let spec = spec_over(rt, text, &netlist, KindName::StarBmd).expect(rt, "a specification");
    sides_at(rt, &netlist, &spec, at)
}

#[test]
fn the_half_adder_is_evaluated(rt: HostRuntime) {
    assert_eq!(rt; sides_of(&rt, ADDER, &ones(&rt, 2)), (2, 2));
}

/// So many lines of this text, of which each has its number.
fn many_lines(alloc: Global, count: u32, front: &str, rest: &str) -> Result<String, AllocError> {
    let mut text = String::new(alloc);
    for i in 0..count {
        write!(text, "{front}{i}{rest}\n")?;
    }
    text.push_str("check 1 == 1\n")?;
    Ok(text)
}

fn push_copies(text: &mut String, copied: &str, count: u32) -> Result<(), AllocError> {
    for _ in 0..count {
        text.push_str(copied)?;
    }
    Ok(())
}

/// One line with so many copies of a text in it.
fn repeated(
    alloc: Global,
    front: &str,
    middle: &str,
    count: u32,
    rest: &str,
) -> Result<String, AllocError> {
    let mut text = String::from_str(alloc, front)?;
    push_copies(&mut text, middle, count)?;
    text.push_str(rest)?;
    Ok(text)
}

/// The fault of a text that there was memory for.
fn fault_of(
    rt: &(impl Abort + AllocGlobal),
    text: Result<String, AllocError>,
) -> (u32, Option<SpecCause>) {
    let text = text.expect(rt, "memory");
    fault(rt, text.as_bytes(), KindName::Hdd)
}

#[test]
fn the_limits_are_kept(rt: HostRuntime) {
    let good = (1_000, None);
    let too_large = (65, Some(SpecCause::TooLarge));
    let rows = [
        (64, "word w", " = a", good),
        (65, "word w", " = a", too_large),
        (63, "check ", " == 1", good),
        (64, "check ", " == 1", too_large),
    ];
    for (count, front, rest, expected) in rows {
        let found = fault_of(&rt, many_lines(rt.alloc(), count, front, rest));
        assert_eq!(rt; found, expected, "{count} of {front}");
    }
}

#[test]
fn a_line_has_its_limits(rt: HostRuntime) {
    let good = (1_000, None);
    let too_large = (1, Some(SpecCause::TooLarge));
    let rows = [
        ("word w =", " a", 127, "\ncheck 1 == 1", good),
        ("word w =", " a", 128, "", too_large),
        ("word ", "w", 64, " = a\ncheck 1 == 1", good),
        ("word ", "w", 65, " = a", too_large),
        ("order ", "n", 65, "", too_large),
        ("split N ", "n", 65, "", too_large),
        ("check 1 == ", "1*", 510, "-1", good),
        ("check 1 == ", "1*", 510, "- -1", too_large),
        ("check 1 == ", "-", 64, "1", good),
        ("check 1 == ", "-", 65, "1", too_large),
        ("check ", "w", 65, " == 1", too_large),
    ];
    for (front, middle, count, rest, expected) in rows {
        let found = fault_of(&rt, repeated(rt.alloc(), front, middle, count, rest));
        assert_eq!(rt; found, expected, "{front}{count} of {middle}{rest}");
    }
}

fn printed(alloc: Global, error: SpecError) -> Result<String, AllocError> {
    format!(in alloc; "{error}")
}

#[test]
fn a_fault_is_printed(rt: HostRuntime) -> Result<(), Fail> {
    let error = SpecError::Fault(SpecFault {
        line: 7,
        cause: SpecCause::BadOrder,
    });
    assert_eq!(rt; printed(rt.alloc(), error)?.as_str(), "7 bad-order");
    Ok(())
}
