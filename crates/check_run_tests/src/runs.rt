//! Runs over texts in memory.
use check_run::run;
use outside::{MemoryShelf, MemorySink, OpenGate};
use std::alloc::{AllocError, Global};

pub const WORDS: &[&str] = &["check", "n", "s"];

pub const KINDS: &[&str] = &["evbdd", "star_bmd", "hdd", "k_star_bmd"];

pub const HALF: &str = "INPUT(a)\nINPUT(b)\nOUTPUT(s)\nOUTPUT(c)\ns = XOR(a, b)\nc = AND(a, b)\n";

pub const HALF_SPEC: &str =
    "word a = a\nword b = b\nword s = s\nword c = c\ncheck s + 2*c == a + b\n";

pub const PAIR: &str = "INPUT(a)\nINPUT(b)\n";

pub const NOR: &str = "INPUT(a)\nINPUT(b)\nz = NOR(a, b)\n";

pub const FULL: &str =
    "INPUT(a)\nINPUT(b)\nINPUT(c)\nt = XOR(a, b)\ns = XOR(t, c)\nd = AND(a, b)\ne = AND(t, c)\no = OR(d, e)\n";

/// A shelf with a netlist and a specification.
pub fn shelf_of(alloc: Global, netlist: &[u8], spec: &[u8]) -> Result<MemoryShelf, AllocError> {
    let mut shelf = MemoryShelf::new(alloc);
    shelf.file("n", netlist)?;
    shelf.file("s", spec)?;
    Ok(shelf)
}

/// The status of a run, and whether it wrote just this.
pub fn outcome(
    alloc: Global,
    words: &[&str],
    shelf: &mut MemoryShelf,
    room: u32,
    written: &str,
) -> Result<(u8, bool), AllocError> {
    let mut out = MemorySink::create(alloc, room)?;
    let status = run(alloc, words, shelf, &mut out, &OpenGate);
    Ok((status.number(), out.bytes() == written.as_bytes()))
}

/// The same over two texts, by diagrams of a kind, with room for all.
pub fn of_kind(
    alloc: Global,
    kind: &str,
    netlist: &str,
    spec: &str,
    written: &str,
) -> Result<(u8, bool), AllocError> {
    let mut shelf = shelf_of(alloc, netlist.as_bytes(), spec.as_bytes())?;
    let words = ["check", "--kind", kind, "n", "s"];
    outcome(alloc, &words, &mut shelf, 1000, written)
}

/// The same by hybrid diagrams.
pub fn of_texts(
    alloc: Global,
    netlist: &str,
    spec: &str,
    written: &str,
) -> Result<(u8, bool), AllocError> {
    of_kind(alloc, "hdd", netlist, spec, written)
}
