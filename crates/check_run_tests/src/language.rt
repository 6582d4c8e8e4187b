use crate::runs::{FULL, HALF, HALF_SPEC, NOR, PAIR, of_texts, outcome};
use std::alloc::{AllocError, Global};
use std::test::Fail;

const INVERTER: &str = "INPUT(a)\ny = NOT(a)\n";

const OF_INVERTER: &str = "word y = y\nword a = a\n";

/// `examples/language.spec`, over `FULL`.
const LANGUAGE: &str =
    "order c a b\nsplit N a b\nword a = a\nword b = b\nword c = c\nword sum = s o        # two bits: the sum, and twice the carry\nword twice=s s        # no space is needed around =\n\n# Checks: two expressions over numbers and words of earlier lines.\ncheck sum == a + b + c\ncheck a - b - c == a - (b + c)\ncheck -a*b == 0 - a*b\ncheck 2*(a + b) == a - -a + b - -b\ncheck twice == 3*(sum - 2*(a*b + b*c + c*a) + 4*a*b*c)\n";

const FIVE_EQUAL: &str =
    "check 1 equal nodes 3\ncheck 2 equal nodes 3\ncheck 3 equal nodes 3\ncheck 4 equal nodes 2\ncheck 5 equal nodes 6\n";

/// The outcome of a specification whose lines begin with these.
fn of_lines(
    alloc: Global,
    netlist: &str,
    first: &str,
    more: &str,
    written: &str,
) -> Result<(u8, bool), AllocError> {
    let mut spec = String::from_str(alloc, first)?;
    spec.push_str(more)?;
    of_texts(alloc, netlist, &spec, written)
}

#[test]
fn each_form_is_taken(rt: HostRuntime) -> Result<(), Fail> {
    let answer = of_texts(rt.alloc(), FULL, LANGUAGE, FIVE_EQUAL)?;
    assert_eq!(rt; answer, (0, true));
    Ok(())
}

#[test]
fn expressions_have_their_values(rt: HostRuntime) -> Result<(), Fail> {
    let rows = [
        ("check y == 1 - a\n", 0, "check 1 equal nodes 1\n"),
        (
            "check y - 2 == 0 - a\n",
            1,
            "check 1 different left -1 right 0 at a=0\n",
        ),
        ("check 3 == 3\n", 0, "check 1 equal nodes 0\n"),
        ("check a - -a == 2*(a)\n", 0, "check 1 equal nodes 1\n"),
        ("check a - 1 - 1 == a - 2\n", 0, "check 1 equal nodes 1\n"),
        ("check -a + a == 0\n", 0, "check 1 equal nodes 0\n"),
        (
            "check 170141183460469231731687303715884105727 + 1 == 0\n",
            3,
            "check 1 overflow\n",
        ),
        (
            "check 170141183460469231731687303715884105727 == 170141183460469231731687303715884105727\n",
            0,
            "check 1 equal nodes 0\n",
        ),
    ];
    for (check, status, line) in rows {
        let answer = of_lines(rt.alloc(), INVERTER, OF_INVERTER, check, line)?;
        assert_eq!(rt; answer, (status, true), "{check}");
    }
    let line = "check 1 different left 1 right 2 at\n";
    let answer = of_texts(rt.alloc(), "", "check 1 == 2\n", line)?;
    assert_eq!(rt; answer, (1, true), "no inputs");
    Ok(())
}

#[test]
fn order_and_letters_hold(rt: HostRuntime) -> Result<(), Fail> {
    let word = "word a = a\n";
    let line = "check 1 different left 1 right 0 at a=1 b=0\n";
    let answer = of_lines(rt.alloc(), PAIR, word, "check a == 0\n", line)?;
    assert_eq!(rt; answer, (1, true), "inputs in their order");
    let line = "check 1 different left 1 right 0 at b=0 a=1\n";
    let answer = of_lines(rt.alloc(), PAIR, word, "check a == 0\norder b a\n", line)?;
    assert_eq!(rt; answer, (1, true), "another order");
    let line = "check 1 different left 0 right 1 at a=0 b=1\n";
    let spec = "split N a b\nword z = z\ncheck z == 1\n";
    let answer = of_texts(rt.alloc(), NOR, spec, line)?;
    assert_eq!(rt; answer, (1, true), "negative Davio");
    Ok(())
}

/// The diagram of a NOR has a node less at negative Davio.
#[test]
fn letters_change_the_nodes(rt: HostRuntime) -> Result<(), Fail> {
    let spec = "word a = a\nword b = b\nword z = z\ncheck z == (1 - a)*(1 - b)\n";
    let answer = of_texts(rt.alloc(), NOR, spec, "check 1 equal nodes 3\n")?;
    assert_eq!(rt; answer, (0, true), "positive Davio");
    let line = "check 1 equal nodes 2\n";
    let answer = of_lines(rt.alloc(), NOR, "split N a b\n", spec, line)?;
    assert_eq!(rt; answer, (0, true), "negative Davio");
    Ok(())
}

#[test]
fn each_check_is_decided(rt: HostRuntime) -> Result<(), Fail> {
    let first_two = "check a == b\n";
    let two_lines = "check 1 equal nodes 2\ncheck 2 different left 0 right 1 at a=0 b=1\n";
    let answer = of_lines(rt.alloc(), HALF, HALF_SPEC, first_two, two_lines)?;
    assert_eq!(rt; answer, (1, true), "two checks");
    let all =
        "check a == b\ncheck 170141183460469231731687303715884105727 + 1 == 0\ncheck 1 == 1\n";
    let four_lines =
        "check 1 equal nodes 2\ncheck 2 different left 0 right 1 at a=0 b=1\ncheck 3 overflow\ncheck 4 equal nodes 0\n";
    let answer = of_lines(rt.alloc(), HALF, HALF_SPEC, all, four_lines)?;
    assert_eq!(rt; answer, (3, true), "a limit, and a check behind it");
    Ok(())
}
