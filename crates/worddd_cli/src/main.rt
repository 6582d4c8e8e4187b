//! The program: `worddd check [--kind KIND] [--cells NUMBER] NETLIST SPECIFICATION`, and `worddd gen [--kind KIND]
//! [--cells NUMBER] SIZE`. It decides the checks of the specification over the netlist, or the check of a multiplier of the
//! size, prints a line for each, and ends with the number of its status.
#![tactic(auto)]

ghost use Rattle.std.specs.Prelude.{◌≡◌, ◌↔◌, [], map, IfOk, IfErr, IsErr, string_bytes};
ghost use Rattle.std.specs.IoError.{error_kind};
ghost use Rattle.std.specs.Process.{exit_status};
ghost use Rattle.std.specs.Vec.Iter.{into_iter_items};
ghost use Rattle.check_run.specs.Outside.{seen, shelf_seen, sink_seen};
ghost use Rattle.settings.specs.Words.{texts};
ghost use Rattle.check_run.specs.Run.{IsRun};
ghost use Rattle.worddd_cli.specs.CommandLine.{behind_name, exit_number, words_in};

use check_run::{Status, run};
use outside::{FileShelf, OpenGate, Shelf, Sink, StreamSink};
use std::alloc::{AllocError, Global};
use std::io::ErrorKind;
use std::process::ExitCode;
use std::{env, io};

#[cfg(test)]
mod tests;

/// The arguments behind the program's name.
fn behind_name(alloc: Global, arguments: env::Args) -> Result<Vec<String>, AllocError>
    ensures { IfOk result (λ words. words.items ≡ behind_name (into_iter_items arguments)) }
{
    arguments.skip(1).collect(alloc)
}

/// The words of a command line, without the program's name. One that has a word that is no UTF-8 has no words.
fn words_of(alloc: Global, arguments: io::Result<env::Args>) -> Result<Vec<String>, AllocError>
    ensures words { IfOk arguments (λ all. IfOk result (λ words. words.items ≡ behind_name (into_iter_items all))) }
    ensures none { IfErr arguments (λ _. IfOk result (λ words. words.items ≡ [])) }
    ensures memory { IfErr arguments (λ error. IsErr result ↔ (error_kind error ≡ ErrorKind.OutOfMemory)) }
{
    match arguments {
        Ok(arguments) => behind_name(alloc, arguments),
        Err(error) if error.kind() == ErrorKind::OutOfMemory => Err(AllocError),
        Err(_) => Ok(Vec::new(alloc)),
    }
}

/// The texts of the words.
fn texts_of(alloc: Global, words: &[String]) -> Result<Vec<&str>, AllocError>
    ensures { IfOk result (λ borrowed. texts borrowed.items ≡ map string_bytes words.now) }
{
    let mut borrowed = Vec::new(alloc);
    for word in words {
        borrowed.push(word.as_str())?;
    }
    Ok(borrowed)
}

/// Runs the command of these words.
fn run_words<F: Shelf, O: Sink>(
    alloc: Global,
    words: &[String],
    shelf: &mut F,
    out: &mut O,
) -> Result<Status, AllocError>
    ensures { IfOk result (IsRun (map string_bytes words.now)
        (seen (shelf_seen F.files F.fetches F.faults shelf.old) (sink_seen O.written O.faults out.old))
        (seen (shelf_seen F.files F.fetches F.faults shelf.new) (sink_seen O.written O.faults out.new))) }
{
    let borrowed = texts_of(alloc, words)?;
    Ok(run(alloc, &borrowed, shelf, out, &OpenGate))
}

/// Runs the command of a command line.
fn answer<F: Shelf, O: Sink>(
    alloc: Global,
    arguments: io::Result<env::Args>,
    shelf: &mut F,
    out: &mut O,
) -> Result<Status, AllocError>
    ensures { IfOk result (IsRun (words_in arguments)
        (seen (shelf_seen F.files F.fetches F.faults shelf.old) (sink_seen O.written O.faults out.old))
        (seen (shelf_seen F.files F.fetches F.faults shelf.new) (sink_seen O.written O.faults out.new))) }
{
    let words = words_of(alloc, arguments)?;
    run_words(alloc, &words, shelf, out)
}

/// Ends with the number of the status, or with that of want of memory.
fn exit_of(status: Result<Status, AllocError>) -> ExitCode
    ensures { exit_status result ≡ exit_number status }
{
    ExitCode::from(status.unwrap_or(Status::NoMemory).number())
}

fn main(rt: HostRuntime) -> ExitCode {
    let mut shelf = FileShelf::new(rt);
    let mut out = StreamSink::new(io::writer(&rt));
    exit_of(answer(rt.alloc(), env::args(&rt), &mut shelf, &mut out))
}
