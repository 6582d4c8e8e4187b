use super::*;
use std::env::{Env, FillError};
use std::fs;
use std::test::Fail;

const FULL: &str =
    "# one bit of a ripple-carry adder\nINPUT(a)\nINPUT(b)\nINPUT(c)\nOUTPUT(s)\nOUTPUT(o)\nt = XOR(a, b)\ns = XOR(t, c)\nd = AND(a, b)\ne = AND(t, c)\no = OR(d, e)\n";

const FULL_SPEC: &str =
    "word a = a\nword b = b\nword c = c\nword s = s\nword o = o\ncheck s + 2*o == a + b + c\n";

const C17: &str =
    "# ISCAS-85 c17\nINPUT(1)\nINPUT(2)\nINPUT(3)\nINPUT(6)\nINPUT(7)\nOUTPUT(22)\nOUTPUT(23)\n10 = NAND(1, 3)\n11 = NAND(3, 6)\n16 = NAND(2, 11)\n19 = NAND(11, 7)\n22 = NAND(10, 16)\n23 = NAND(16, 19)\n";

const C17_SPEC: &str = "word g = 22\nword p = 10\nword q = 16\ncheck g == 1 - p*q\n";

/// A command line of these arguments.
#[derive(Drop)]
struct Arguments<'a> {
    all: &'a [&'a [u8]],
}

impl<'a> Env for Arguments<'a> {
    fn arg(&self, i: usize, buf: &mut [u8]) -> Result<usize, FillError> {
        let Some(argument) = self.all.get(i) else {
            return Err(FillError::NotPresent);
        };
        if argument.len() > buf.len() {
            return Err(FillError::TooLong);
        }
        buf[..argument.len()].copy_from_slice(argument);
        Ok(argument.len())
    }

    fn var(&self, _name: &str, _buf: &mut [u8]) -> Result<usize, FillError> {
        Err(FillError::NotPresent)
    }

    fn var_at(&self, _i: usize, _buf: &mut [u8]) -> Result<usize, FillError> {
        Err(FillError::NotPresent)
    }
}

/// The number of the status to which these arguments lead, over the real files.
fn number_of_arguments(rt: HostRuntime, arguments: &[&[u8]]) -> Result<u8, Fail> {
    let alloc = rt.alloc();
    let arguments = env::args(&(Arguments { all: arguments }, alloc));
    let mut shelf = FileShelf::new(rt);
    let mut out = StreamSink::new(io::writer(&rt));
    Ok(answer(alloc, arguments, &mut shelf, &mut out)?.number())
}

/// The number of the status to which the files of two names lead.
fn number_of(rt: HostRuntime, netlist: &str, spec: &str) -> Result<u8, Fail> {
    let names = [netlist.as_bytes(), spec.as_bytes()];
    number_of_arguments(
        rt,
        &[b"worddd", b"check", b"--kind", b"hdd", names[0], names[1]],
    )
}

/// The same of two real files with these texts.
fn number_of_texts(rt: HostRuntime, netlist: &str, spec: &str) -> Result<u8, Fail> {
    fs::write(&rt, "netlist.bench", netlist)?;
    fs::write(&rt, "words.spec", spec)?;
    let number = number_of(rt, "netlist.bench", "words.spec")?;
    fs::remove_file(&rt, "netlist.bench")?;
    fs::remove_file(&rt, "words.spec")?;
    Ok(number)
}

#[test]
fn real_files_are_checked(rt: HostRuntime) -> Result<(), Fail> {
    let rows = [
        (FULL, FULL_SPEC, 0),
        (C17, C17_SPEC, 0),
        (C17, "word g = 22\nword p = 10\ncheck g == p\n", 1),
        ("INPUT(a)\nz = DFF(a)\n", C17_SPEC, 2),
        (C17, "check 1 = 1\n", 2),
        (
            C17,
            "check 170141183460469231731687303715884105727 + 1 == 1\n",
            3,
        ),
    ];
    for (netlist, spec, status) in rows {
        assert_eq!(rt; number_of_texts(rt, netlist, spec)?, status, "{spec}");
    }
    Ok(())
}

#[test]
fn an_absent_file_is_a_read_fault(rt: HostRuntime) -> Result<(), Fail> {
    assert_eq!(rt; number_of(rt, "absent.bench", "absent.spec")?, 4);
    Ok(())
}

#[test]
fn words_that_are_no_text_are_refused(rt: HostRuntime) -> Result<(), Fail> {
    assert_eq!(rt;
        number_of_arguments(rt, &[b"worddd", b"check", b"\xff"])?,
        2
    );
    Ok(())
}

#[test]
fn want_of_memory_has_a_number(rt: HostRuntime) {
    assert!(rt; exit_of(Err(AllocError)) == ExitCode::from(6));
}
