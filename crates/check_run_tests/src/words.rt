use crate::runs::{HALF, HALF_SPEC, outcome, shelf_of};
use check_run::{Method, Settings, Verdict, check_one};
use outside::{MemoryShelf, OpenGate};
use std::test::Fail;
use word_base::KindName;

const USUAL: Settings = Settings {
    kind: KindName::StarBmd,
    method: Method::Forward,
    workers: 1,
    cells: 262_144,
};

/// What the multiplier of two bits comes to, by diagrams of a kind.
const MULTIPLIERS: [(&str, &str); 4] = [
    ("evbdd", "gen 2 inputs 4 gates 8\ncheck 1 equal nodes 9\n"),
    (
        "star_bmd",
        "gen 2 inputs 4 gates 8\ncheck 1 equal nodes 4\n",
    ),
    ("hdd", "gen 2 inputs 4 gates 8\ncheck 1 equal nodes 6\n"),
    (
        "k_star_bmd",
        "gen 2 inputs 4 gates 8\ncheck 1 equal nodes 4\n",
    ),
];

#[test]
fn multipliers_are_made(rt: HostRuntime) -> Result<(), Fail> {
    let mut shelf = MemoryShelf::new(rt.alloc());
    for (kind, written) in MULTIPLIERS {
        let words = ["gen", "--kind", kind, "2"];
        let answer = outcome(rt.alloc(), &words, &mut shelf, 1000, written)?;
        assert_eq!(rt; answer, (0, true), "{kind}");
    }
    Ok(())
}

#[test]
fn a_multiplier_fills_its_cells(rt: HostRuntime) -> Result<(), Fail> {
    let mut shelf = MemoryShelf::new(rt.alloc());
    let words = ["gen", "5", "--cells=256"];
    let written = "gen 5 inputs 10 gates 110\ncheck 1 full\n";
    let answer = outcome(rt.alloc(), &words, &mut shelf, 1000, written)?;
    assert_eq!(rt; answer, (3, true));
    Ok(())
}

#[test]
fn options_stand_behind_names(rt: HostRuntime) -> Result<(), Fail> {
    let mut shelf = shelf_of(rt.alloc(), HALF.as_bytes(), HALF_SPEC.as_bytes())?;
    let equal = "check 1 equal nodes 2\n";
    let words = ["check", "n", "s", "--kind=hdd"];
    let answer = outcome(rt.alloc(), &words, &mut shelf, 1000, equal)?;
    assert_eq!(rt; answer, (0, true), "a value behind =");
    let words = ["check", "n", "--cells", "256", "s"];
    let answer = outcome(rt.alloc(), &words, &mut shelf, 1000, equal)?;
    assert_eq!(rt; answer, (0, true), "an option between names");
    let words = ["check", "--", "n", "s"];
    let answer = outcome(rt.alloc(), &words, &mut shelf, 1000, equal)?;
    assert_eq!(rt; answer, (0, true), "names behind --");
    let usage = "refused usage\n";
    for word in ["--help", "--version", "-k", "--kind="] {
        let words = ["check", word, "n", "s"];
        let answer = outcome(rt.alloc(), &words, &mut shelf, 1000, usage)?;
        assert_eq!(rt; answer, (2, true), "{word}");
    }
    Ok(())
}

/// The texts of a multiplier, read by both readers, have as many inputs, gates and checks as its rule says.
#[test]
fn a_multiplier_is_read(rt: HostRuntime) -> Result<(), Fail> {
    let (netlist, spec) = multiplier::generate(rt.alloc(), 2)?;
    assert!(rt; netlist.len() <= texts::MOST_BYTES);
    assert!(rt; spec.len() <= texts::MOST_BYTES);
    let netlist = bench_reader::read(rt.alloc(), &netlist)?;
    let spec = spec_reader::read(rt.alloc(), &spec, &netlist, KindName::StarBmd)?;
    assert_eq!(rt;
        (netlist.inputs(), netlist.gates(), spec.checks()),
        (4, 8, 1)
    );
    assert!(rt; spec.checks() == 1);
    let verdict = check_one(rt.alloc(), &netlist, &spec, 0, USUAL, &OpenGate)?;
    assert!(rt; matches!(verdict, Verdict::Equal { nodes: 4 }));
    Ok(())
}
