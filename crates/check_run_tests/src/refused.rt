use crate::runs::{HALF, HALF_SPEC, WORDS, of_kind, of_texts, outcome, shelf_of};
use std::test::Fail;

#[test]
fn netlists_are_refused(rt: HostRuntime) -> Result<(), Fail> {
    let rows = [
        ("INPUT(a)\nz = AND(a", "refused netlist 2 bad-line\n"),
        (
            "INPUT(a)\nz = MAJ(a, a, a)\n",
            "refused netlist 2 unknown-gate\n",
        ),
        ("INPUT(a)\nz = NOT(a, a)\n", "refused netlist 2 bad-arity\n"),
        (
            "INPUT(a)\nx = NOT(q)\na = NOT(x)\n",
            "refused netlist 3 duplicate-net\n",
        ),
        (
            "INPUT(a)\nz = NOT(q)\n",
            "refused netlist 2 undefined-net\n",
        ),
        ("INPUT(a)\nx = AND(x, a)\n", "refused netlist 2 cycle\n"),
        (
            "INPUT(a)\nOUTPUT(z)\nz = DFF(a)\n",
            "refused netlist 3 sequential\n",
        ),
        ("INPUT(\u{e9})\n", "refused netlist 1 not-ascii\n"),
    ];
    for (netlist, line) in rows {
        let answer = of_texts(rt.alloc(), netlist, "", line)?;
        assert_eq!(rt; answer, (2, true), "{line}");
    }
    Ok(())
}

#[test]
fn words_are_refused(rt: HostRuntime) -> Result<(), Fail> {
    let mut shelf = shelf_of(rt.alloc(), HALF.as_bytes(), HALF_SPEC.as_bytes())?;
    let usage = "refused usage\n";
    let answer = outcome(rt.alloc(), &["check"], &mut shelf, 1000, usage)?;
    assert_eq!(rt; answer, (2, true), "no name");
    let words = ["check", "--workers", "17", "n", "s"];
    let answer = outcome(rt.alloc(), &words, &mut shelf, 1000, usage)?;
    assert_eq!(rt; answer, (2, true), "17 workers");
    let answer = of_kind(rt.alloc(), "bdd", HALF, HALF_SPEC, usage)?;
    assert_eq!(rt; answer, (2, true), "another kind");
    let unbuilt = "refused words unbuilt\n";
    let words = ["check", "--workers", "2", "n", "s"];
    let answer = outcome(rt.alloc(), &words, &mut shelf, 1000, unbuilt)?;
    assert_eq!(rt; answer, (2, true), "two workers");
    let words = ["check", "--method", "backward", "n", "s"];
    let answer = outcome(rt.alloc(), &words, &mut shelf, 1000, unbuilt)?;
    assert_eq!(rt; answer, (2, true), "backward");
    let words = ["gen", "--workers", "2", "3"];
    let answer = outcome(rt.alloc(), &words, &mut shelf, 1000, unbuilt)?;
    assert_eq!(rt; answer, (2, true), "two workers on a multiplier");
    let answer = outcome(rt.alloc(), &["gen", "17"], &mut shelf, 1000, usage)?;
    assert_eq!(rt; answer, (2, true), "17 bits");
    Ok(())
}

#[test]
fn specifications_are_refused(rt: HostRuntime) -> Result<(), Fail> {
    let rows = [
        ("", "refused spec 0 no-check\n"),
        ("word a = a\n", "refused spec 0 no-check\n"),
        ("check a == 0\n", "refused spec 1 unknown-word\n"),
        ("order a\n", "refused spec 1 bad-order\n"),
        ("check mod == 1\n", "refused spec 1 bad-line\n"),
        (
            "check 170141183460469231731687303715884105728 == 0\n",
            "refused spec 1 number-too-large\n",
        ),
        (
            "word a = a\n# again\nword a = b\n",
            "refused spec 3 duplicate-word\n",
        ),
        ("word a = q\n", "refused spec 1 unknown-net\n"),
        ("split N s\n", "refused spec 1 bad-split\n"),
    ];
    for (spec, line) in rows {
        let answer = of_texts(rt.alloc(), HALF, spec, line)?;
        assert_eq!(rt; answer, (2, true), "{line}");
    }
    let line = "refused spec 1 split-not-for-kind\n";
    let answer = of_kind(rt.alloc(), "evbdd", HALF, "split P a\ncheck 1 == 1\n", line)?;
    assert_eq!(rt; answer, (2, true), "{line}");
    Ok(())
}

#[test]
fn long_files_are_refused(rt: HostRuntime) -> Result<(), Fail> {
    let long = vec![in rt.alloc(); b'#'; 1_048_577]?;
    let mut shelf = shelf_of(rt.alloc(), &long, HALF_SPEC.as_bytes())?;
    let line = "refused netlist too-long\n";
    let answer = outcome(rt.alloc(), WORDS, &mut shelf, 1000, line)?;
    assert_eq!(rt; answer, (2, true));
    let mut shelf = shelf_of(rt.alloc(), HALF.as_bytes(), &long)?;
    let line = "refused spec too-long\n";
    let answer = outcome(rt.alloc(), WORDS, &mut shelf, 1000, line)?;
    assert_eq!(rt; answer, (2, true));
    Ok(())
}
