use crate::runs::{FULL, HALF, HALF_SPEC, KINDS, NOR, PAIR, of_kind, of_texts, outcome, shelf_of};
use std::alloc::{AllocError, Global};
use std::test::Fail;

const HALF_OR: &str = "INPUT(a)\nINPUT(b)\nOUTPUT(s)\nOUTPUT(c)\ns = OR(a, b)\nc = AND(a, b)\n";

const HALF_WITHOUT_CARRY: &str =
    "word a = a\nword b = b\nword s = s\nword c = c\ncheck s + c == a + b\n";

const FULL_SPEC: &str =
    "word a = a\nword b = b\nword c = c\nword s = s\nword o = o\ncheck s + 2*o == a + b + c\n";

const C17: &str =
    "INPUT(1)\nINPUT(2)\nINPUT(3)\nINPUT(6)\nINPUT(7)\nOUTPUT(22)\nOUTPUT(23)\n10 = NAND(1, 3)\n11 = NAND(3, 6)\n16 = NAND(2, 11)\n19 = NAND(11, 7)\n22 = NAND(10, 16)\n23 = NAND(16, 19)\n";

const C17_SPEC: &str = "word g = 22\nword p = 10\nword q = 16\ncheck g == 1 - p*q\n";

const NOR_SPEC: &str = "word a = a\nword b = b\nword z = z\ncheck z == (1 - a)*(1 - b)\n";

const NOR_SUM_SPEC: &str = "word a = a\nword b = b\nword z = z\ncheck z + a + b == 1 + a*b\n";

const PRODUCT: &str = "INPUT(a0)\nINPUT(a1)\nINPUT(b0)\nINPUT(b1)\n";

const PRODUCT_SPEC: &str = "word a = a0 a1\nword b = b0 b1\ncheck a*b == b*a\n";

const SIXTEEN: &str =
    "INPUT(a0)\nINPUT(a1)\nINPUT(a2)\nINPUT(a3)\nINPUT(a4)\nINPUT(a5)\nINPUT(a6)\nINPUT(a7)\nINPUT(a8)\nINPUT(a9)\nINPUT(a10)\nINPUT(a11)\nINPUT(a12)\nINPUT(a13)\nINPUT(a14)\nINPUT(a15)\nINPUT(b0)\nINPUT(b1)\nINPUT(b2)\nINPUT(b3)\nINPUT(b4)\nINPUT(b5)\nINPUT(b6)\nINPUT(b7)\nINPUT(b8)\nINPUT(b9)\nINPUT(b10)\nINPUT(b11)\nINPUT(b12)\nINPUT(b13)\nINPUT(b14)\nINPUT(b15)\n";

const SIXTEEN_SPEC: &str =
    "word a = a0 a1 a2 a3 a4 a5 a6 a7 a8 a9 a10 a11 a12 a13 a14 a15\nword b = b0 b1 b2 b3 b4 b5 b6 b7 b8 b9 b10 b11 b12 b13 b14 b15\ncheck a*b == a*b\n";

/// The sides' tables have weights alone, and their values are none where they differ first.
const GREAT_SPEC: &str =
    "word a = a\nword b = b\ncheck 170141183460469231731687303715884105727*a + 170141183460469231731687303715884105727*b == 170141183460469231731687303715884105727*a + 170141183460469231731687303715884105727*b + a*b\n";

/// Rows for one kind: the number of nodes is its own.
#[test]
fn checks_are_decided(rt: HostRuntime) -> Result<(), Fail> {
    let rows = [
        ("star_bmd", HALF, HALF_SPEC, "check 1 equal nodes 2\n"),
        ("evbdd", HALF, HALF_SPEC, "check 1 equal nodes 2\n"),
        ("hdd", HALF, HALF_SPEC, "check 1 equal nodes 2\n"),
        ("k_star_bmd", HALF, HALF_SPEC, "check 1 equal nodes 2\n"),
        ("star_bmd", FULL, FULL_SPEC, "check 1 equal nodes 3\n"),
        ("evbdd", FULL, FULL_SPEC, "check 1 equal nodes 3\n"),
        ("star_bmd", PRODUCT, PRODUCT_SPEC, "check 1 equal nodes 4\n"),
        ("evbdd", PRODUCT, PRODUCT_SPEC, "check 1 equal nodes 9\n"),
        ("hdd", PRODUCT, PRODUCT_SPEC, "check 1 equal nodes 6\n"),
        (
            "k_star_bmd",
            PRODUCT,
            PRODUCT_SPEC,
            "check 1 equal nodes 4\n",
        ),
        ("star_bmd", C17, C17_SPEC, "check 1 equal nodes 8\n"),
        ("hdd", NOR, NOR_SPEC, "check 1 equal nodes 3\n"),
        ("hdd", NOR, NOR_SUM_SPEC, "check 1 equal nodes 2\n"),
        (
            "hdd",
            "INPUT(a)\r\ny = nand(a, a)\r\n",
            "word y = y\nword a = a\ncheck y + a == 1\n",
            "check 1 equal nodes 0\n",
        ),
    ];
    for (kind, netlist, spec, line) in rows {
        let answer = of_kind(rt.alloc(), kind, netlist, spec, line)?;
        assert_eq!(rt; answer, (0, true), "{kind}: {line}");
    }
    Ok(())
}

/// Rows that each kind answers alike.
#[test]
fn differences_and_limits_are_found(rt: HostRuntime) -> Result<(), Fail> {
    let rows = [
        (
            HALF_OR,
            HALF_SPEC,
            1,
            "check 1 different left 3 right 2 at a=1 b=1\n",
        ),
        (
            HALF,
            HALF_WITHOUT_CARRY,
            1,
            "check 1 different left 1 right 2 at a=1 b=1\n",
        ),
        (
            PAIR,
            "check 170141183460469231731687303715884105727 + 1 == 1\n",
            3,
            "check 1 overflow\n",
        ),
        (PAIR, GREAT_SPEC, 3, "check 1 overflow\n"),
        (
            NOR,
            "word z = z\ncheck z == 1\n",
            1,
            "check 1 different left 0 right 1 at a=0 b=1\n",
        ),
    ];
    for kind in KINDS {
        for (netlist, spec, status, line) in rows {
            let answer = of_kind(rt.alloc(), kind, netlist, spec, line)?;
            assert_eq!(rt; answer, (status, true), "{kind}: {line}");
        }
    }
    Ok(())
}

#[test]
fn a_check_has_the_cells_that_are_asked_for(rt: HostRuntime) -> Result<(), Fail> {
    let mut shelf = shelf_of(rt.alloc(), SIXTEEN.as_bytes(), SIXTEEN_SPEC.as_bytes())?;
    let words = ["check", "--kind", "hdd", "--cells", "256", "n", "s"];
    let answer = outcome(rt.alloc(), &words, &mut shelf, 1000, "check 1 full\n")?;
    assert_eq!(rt; answer, (3, true), "256 cells");
    let words = ["check", "--cells", "65536", "--kind", "hdd", "n", "s"];
    let line = "check 1 equal nodes 272\n";
    let answer = outcome(rt.alloc(), &words, &mut shelf, 1000, line)?;
    assert_eq!(rt; answer, (0, true), "65536 cells");
    Ok(())
}

/// An input and a chain of inverters.
fn inverters(alloc: Global, count: u16) -> Result<String, AllocError> {
    let mut text = String::from_str(alloc, "INPUT(n0)\n")?;
    for number in 0..count {
        let next = u32::from(number) + 1;
        write!(text, "n{next} = NOT(n{number})\n")?;
    }
    Ok(text)
}

#[test]
fn a_netlist_has_at_most_4096_gates(rt: HostRuntime) -> Result<(), Fail> {
    let spec = "word a = n0\nword z = n4096\ncheck z == a\n";
    let most = inverters(rt.alloc(), 4096)?;
    let answer = of_texts(rt.alloc(), &most, spec, "check 1 equal nodes 1\n")?;
    assert_eq!(rt; answer, (0, true));
    let more = inverters(rt.alloc(), 4097)?;
    let answer = of_texts(rt.alloc(), &more, spec, "refused netlist 4098 too-large\n")?;
    assert_eq!(rt; answer, (2, true));
    Ok(())
}
