ghost use Rattle.std.specs.Prelude.{◌≡◌, ◌≤◌, ◌++◌, List, ℕ, None, OnOk, IfOk};
ghost use Rattle.outside.specs.Shelf.{Holds};

use super::*;
use std::alloc::{AllocError, Global};
use std::io::{ErrorKind, Read, Write};
use std::test::Fail;
use std::{fs, io};

// Code over a bound knows what the shelf tells: a file that is there comes whole.
fn fetch_into<S: Shelf>(
    shelf: &mut S,
    name: &str,
    limit: usize,
    into: &mut Vec<u8>,
) -> Result<(), FetchError>
    ensures { OnOk result ((bytes : List ℕ) → Holds (S.files shelf.old) name.now bytes → into.new.items ≡ into.old.items ++ bytes) }
{
    shelf.fetch(name, limit, into)
}

fn put_into<S: Sink>(sink: &mut S, bytes: &[u8]) -> Result<(), PutFailed> {
    sink.put(bytes)
}

// How many bytes the calls are to take in turn, or how they fail. Behind these each takes all that it can.
#[derive(Drop)]
struct Pieces<'a> {
    steps: &'a [Result<usize, ErrorKind>],
}

impl<'a> Pieces<'a> {
    fn next(&mut self, most: usize) -> io::Result<usize>
        ensures { IfOk result (λ count. count ≤ most) }
    {
        let Some((step, rest)) = self.steps.split_first() else {
            return Ok(most);
        };
        self.steps = rest;
        match step {
            Ok(count) => Ok((*count).min(most)),
            Err(kind) => Err(io::Error::from(*kind)),
        }
    }
}

#[derive(Drop)]
struct PiecedFile<'a> {
    left: &'a [u8],
    pieces: Pieces<'a>,
}

impl<'a> Read for PiecedFile<'a> {
    fn read(&mut self, buf: &mut [u8]) -> io::Result<usize> {
        let most = buf.len().min(self.left.len());
        let count = self.pieces.next(most)?;
        buf[..count].copy_from_slice(&self.left[..count]);
        self.left = &self.left[count..];
        Ok(count)
    }
}

// One file, under every name but the empty one.
#[derive(Drop)]
struct PiecedFiles<'a> {
    bytes: &'a [u8],
    steps: &'a [Result<usize, ErrorKind>],
}

impl<'a> Opener for PiecedFiles<'a> {
    type File = PiecedFile<'a>;

    ghost files = { λ _. None };

    fn open(&self, name: &str) -> io::Result<PiecedFile<'a>> {
        if name.is_empty() {
            return Err(io::Error::from(ErrorKind::NotFound));
        }
        Ok(PiecedFile {
            left: self.bytes,
            pieces: Pieces { steps: self.steps },
        })
    }
}

#[derive(Drop)]
struct PiecedOutput<'a> {
    taken: Vec<u8>,
    pieces: Pieces<'a>,
}

impl<'a> Write for PiecedOutput<'a> {
    fn write(&mut self, buf: &[u8]) -> io::Result<usize> {
        let count = self.pieces.next(buf.len())?;
        self.taken.extend_from_slice(&buf[..count])?;
        Ok(count)
    }

    fn flush(&mut self) -> io::Result<()> {
        Ok(())
    }
}

// Bytes of which no two neighbouring pieces are alike.
fn numbered(alloc: Global, count: u32) -> Result<Vec<u8>, AllocError> {
    let mut bytes = Vec::new(alloc);
    for number in 0..count {
        bytes.push((number % 251) as u8)?;
    }
    Ok(bytes)
}

#[test]
fn a_shelf_in_memory_gives_its_files(rt: HostRuntime) -> Result<(), Fail> {
    let mut shelf = MemoryShelf::new(rt.alloc());
    shelf.file("three", &[8])?;
    shelf.file("three", &[1, 2, 3])?;
    shelf.fail(2)?;
    let mut into = vec![in rt.alloc(); 5, 6]?;
    let fetches = [
        ("three", 3, Ok(())),
        ("three", 3, Err(FetchError::Failed)),
        ("four", 3, Err(FetchError::Failed)),
        ("three", 2, Err(FetchError::TooLong)),
    ];
    for (name, limit, want) in fetches {
        let answer = fetch_into(&mut shelf, name, limit, &mut into);
        assert_eq!(rt; answer, want, "{name} within {limit}");
    }
    assert_eq!(rt; into.as_slice(), [5, 6, 1, 2, 3].as_slice());
    Ok(())
}

#[test]
fn a_sink_in_memory_takes_what_fits(rt: HostRuntime) -> Result<(), Fail> {
    let mut sink = MemorySink::create(rt.alloc(), 5)?;
    let first = put_into(&mut sink, &[1]);
    let second = put_into(&mut sink, &[2, 3, 4, 5, 6, 7, 8, 9]);
    assert_eq!(rt; (first, second), (Ok(()), Err(PutFailed)));
    assert_eq!(rt; sink.bytes(), [1, 2, 3, 4, 5].as_slice());
    Ok(())
}

#[test]
fn files_are_fetched(rt: HostRuntime) -> Result<(), Fail> {
    fs::write(&rt, "seven.txt", "7 bytes")?;
    let mut shelf = FileShelf::new(rt);
    let mut into = vec![in rt.alloc(); b'>']?;
    let fetches = [
        ("seven.txt", 7, Ok(())),
        ("absent.txt", 7, Err(FetchError::Failed)),
        ("seven.txt", 6, Err(FetchError::TooLong)),
    ];
    for (name, limit, want) in fetches {
        let answer = fetch_into(&mut shelf, name, limit, &mut into);
        assert_eq!(rt; answer, want, "{name} within {limit}");
    }
    fs::remove_file(&rt, "seven.txt")?;
    assert_eq!(rt; into.as_slice(), b">7 bytes".as_slice());
    Ok(())
}

#[test]
fn a_long_file_is_fetched(rt: HostRuntime) -> Result<(), Fail> {
    let bytes = numbered(rt.alloc(), 70_000)?;
    fs::write(&rt, "long.bin", bytes.as_slice())?;
    let mut shelf = FileShelf::new(rt);
    let mut into = vec![in rt.alloc(); b'>']?;
    let cut = fetch_into(&mut shelf, "long.bin", 69_999, &mut into);
    assert_eq!(rt;
        (cut, into.as_slice()),
        (Err(FetchError::TooLong), b">".as_slice())
    );
    let whole = fetch_into(&mut shelf, "long.bin", 70_000, &mut into);
    fs::remove_file(&rt, "long.bin")?;
    assert_eq!(rt; (whole, into.len()), (Ok(()), 70_001));
    assert_eq!(rt; &into.as_slice()[1..], bytes.as_slice());
    Ok(())
}

#[test]
fn a_file_is_read_piece_by_piece(rt: HostRuntime) -> Result<(), Fail> {
    let bytes = numbered(rt.alloc(), 8_200)?;
    let single = [Ok(1); 20];
    let uneven = [Ok(1), Err(ErrorKind::Interrupted), Ok(4_096), Ok(3)];
    let fault = [Ok(5), Err(ErrorKind::BrokenPipe)];
    let reads = [
        (single.as_slice(), 8_200, Ok(())),
        (uneven.as_slice(), 8_200, Ok(())),
        (uneven.as_slice(), 8_199, Err(FetchError::TooLong)),
        (fault.as_slice(), 8_200, Err(FetchError::Failed)),
    ];
    for (steps, limit, want) in reads {
        let mut into = Vec::new(rt.alloc());
        let mut shelf = FileShelf::new(PiecedFiles {
            bytes: bytes.as_slice(),
            steps,
        });
        let absent = fetch_into(&mut shelf, "", limit, &mut into);
        assert_eq!(rt; absent, Err(FetchError::Failed));
        let answer = fetch_into(&mut shelf, "file", limit, &mut into);
        assert_eq!(rt; answer, want, "within {limit}");
        let whole = if answer.is_ok() {
            bytes.as_slice()
        } else {
            &[]
        };
        assert_eq!(rt; into.as_slice(), whole);
    }
    Ok(())
}

#[test]
fn an_output_is_written_piece_by_piece(rt: HostRuntime) -> Result<(), Fail> {
    let single = [Ok(1); 20];
    let uneven = [Ok(1), Err(ErrorKind::Interrupted), Ok(2)];
    let full = [Ok(3), Ok(0)];
    let fault = [Ok(2), Err(ErrorKind::BrokenPipe)];
    let writes = [
        (single.as_slice(), Ok(()), 22),
        (uneven.as_slice(), Ok(()), 22),
        (full.as_slice(), Err(PutFailed), 3),
        (fault.as_slice(), Err(PutFailed), 2),
    ];
    let bytes = b"22 bytes to be written";
    for (steps, want, taken) in writes {
        let mut output = PiecedOutput {
            taken: Vec::new(rt.alloc()),
            pieces: Pieces { steps },
        };
        let answer = put_into(&mut StreamSink::new(&mut output), bytes);
        assert_eq!(rt; (answer, output.taken.as_slice()), (want, &bytes[..taken]));
    }
    Ok(())
}

#[test]
fn standard_output_takes_bytes(rt: HostRuntime) {
    let mut sink = StreamSink::new(io::writer(&rt));
    assert_eq!(rt; put_into(&mut sink, b"written\n"), Ok(()));
}
