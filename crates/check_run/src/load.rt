ghost use Rattle.std.specs.Prelude.{◌≡◌, ◌≤◌, Some, IfOk, true};
ghost use Rattle.check_run.specs.Files.{IsText, RefusesNetlist, RefusesSpec, SaysNetlist, SaysSpec};
ghost use Rattle.check_run.specs.Loading.{ComesTo, Gives, HasSize, IsTooLong, Loads, LoadsTexts, loaded};
ghost use Rattle.check_run.specs.Outside.{ShelfSeen, shelf_seen};
ghost use Rattle.check_run.specs.Sources.{in_files, made, plain_source};
ghost use Rattle.check_run.specs.Words.{is_built};
ghost use Rattle.outside.specs.Count.{raised};
ghost use Rattle.outside.specs.Shelf.{told};
ghost use Rattle.settings.specs.Limits.{AreWithin};
ghost use Rattle.settings.specs.Words.{texts};
ghost use Rattle.multiplier.specs.declared.size.TheConstants.{LEAST_SIZE, MOST_SIZE};
ghost use Rattle.spec_grammar.specs.ReadFor.{IsReadFor};

use crate::asked::{Asked, Source};
use crate::stop::Stop;
use crate::words::asked;
use multiplier::generate;
use netlist::Netlist;
use outside::Shelf;
use report::Refusal;
use spec_lang::Spec;
use std::alloc::Global;
use texts::MOST_BYTES;
use word_base::KindName;

/// The whole file of a name, which is refused as `too_long` where it is.
fn fetch<F: Shelf>(
    alloc: Global,
    shelf: &mut F,
    name: &str,
    too_long: Refusal,
) -> Result<Vec<u8>, Stop>
    ensures files { F.files shelf.new ≡ F.files shelf.old }
    ensures once { F.fetches shelf.new ≡ raised (F.fetches shelf.old) }
    ensures text { ComesTo (λ bytes. IsText (told (F.files shelf.old) name.now) bytes.items)
        (IsTooLong (told (F.files shelf.old) name.now) too_long)
        (shelf_seen F.files F.fetches F.faults shelf.old)
        (shelf_seen F.files F.fetches F.faults shelf.new) (told (F.files shelf.old) name.now) result }
{
    let mut bytes = Vec::new(alloc);
    match shelf.fetch(name, MOST_BYTES, &mut bytes) {
        Ok(()) => Ok(bytes),
        Err(error) => Err(Stop::of_fetch(error, too_long)),
    }
}

/// The netlist that the file of a name says.
fn load_netlist<F: Shelf>(alloc: Global, shelf: &mut F, name: &str) -> Result<Netlist, Stop>
    ensures files { F.files shelf.new ≡ F.files shelf.old }
    ensures once { F.fetches shelf.new ≡ raised (F.fetches shelf.old) }
    ensures netlist { ComesTo (SaysNetlist (told (F.files shelf.old) name.now))
        (RefusesNetlist (told (F.files shelf.old) name.now))
        (shelf_seen F.files F.fetches F.faults shelf.old)
        (shelf_seen F.files F.fetches F.faults shelf.new) (told (F.files shelf.old) name.now) result }
{
    let bytes = fetch(alloc, shelf, name, Refusal::NetlistTooLong)?;
    Ok(bench_reader::read(alloc, &bytes)?)
}

/// The specification that the file of a name says over a netlist, for a kind of diagram.
fn load_spec<F: Shelf>(
    alloc: Global,
    shelf: &mut F,
    name: &str,
    kind: KindName,
    netlist: &Netlist,
) -> Result<Spec, Stop>
    ensures files { F.files shelf.new ≡ F.files shelf.old }
    ensures once { F.fetches shelf.new ≡ raised (F.fetches shelf.old) }
    ensures spec { ComesTo (SaysSpec kind netlist.now (told (F.files shelf.old) name.now))
        (RefusesSpec kind netlist.now (told (F.files shelf.old) name.now))
        (shelf_seen F.files F.fetches F.faults shelf.old)
        (shelf_seen F.files F.fetches F.faults shelf.new) (told (F.files shelf.old) name.now) result }
    ensures read_for { IfOk result (λ spec. IsReadFor netlist.now kind spec) }
{
    let bytes = fetch(alloc, shelf, name, Refusal::SpecTooLong)?;
    Ok(spec_reader::read(alloc, &bytes, netlist, kind)?)
}

/// The netlist that a text says.
fn made_netlist(alloc: Global, text: &[u8]) -> Result<Netlist, Stop>
    ensures { Gives (SaysNetlist (Some (Some text.now))) (RefusesNetlist (Some (Some text.now))) result }
{
    if text.len() > MOST_BYTES {
        return Err(Stop::Refused(Refusal::NetlistTooLong));
    }
    Ok(bench_reader::read(alloc, text)?)
}

/// The specification that a text says over a netlist, for a kind of diagram.
fn made_spec(alloc: Global, text: &[u8], kind: KindName, netlist: &Netlist) -> Result<Spec, Stop>
    ensures spec { Gives (SaysSpec kind netlist.now (Some (Some text.now)))
        (RefusesSpec kind netlist.now (Some (Some text.now))) result }
    ensures read_for { IfOk result (λ spec. IsReadFor netlist.now kind spec) }
{
    if text.len() > MOST_BYTES {
        return Err(Stop::Refused(Refusal::SpecTooLong));
    }
    Ok(spec_reader::read(alloc, text, netlist, kind)?)
}

/// What the files of two names say, for a kind of diagram.
fn load_files<F: Shelf>(
    alloc: Global,
    shelf: &mut F,
    netlist: &str,
    spec: &str,
    kind: KindName,
) -> Result<(Netlist, Spec), Stop>
    ensures files { F.files shelf.new ≡ F.files shelf.old }
    ensures loads { LoadsTexts kind (in_files netlist.now spec.now)
        (shelf_seen F.files F.fetches F.faults shelf.old)
        (shelf_seen F.files F.fetches F.faults shelf.new) result }
    ensures read_for { IfOk result (λ both. IsReadFor both.0 kind both.1) }
{
    let netlist = load_netlist(alloc, shelf, netlist)?;
    let spec = load_spec(alloc, shelf, spec, kind, &netlist)?;
    Ok((netlist, spec))
}

/// What the texts of the multiplier of a size say, for a kind of diagram.
fn load_multiplier(alloc: Global, size: u32, kind: KindName) -> Result<(Netlist, Spec), Stop>
    requires least { LEAST_SIZE ≤ size }
    requires most { size ≤ MOST_SIZE }
    ensures loads { (shelf : ShelfSeen) → LoadsTexts kind (made size) shelf shelf result }
    ensures read_for { IfOk result (λ both. IsReadFor both.0 kind both.1) }
{
    let (netlist, spec) = generate(alloc, size)?;
    let netlist = made_netlist(alloc, &netlist)?;
    let spec = made_spec(alloc, &spec, kind, &netlist)?;
    Ok((netlist, spec))
}

/// What the texts say that are asked for.
fn load_texts<F: Shelf>(
    alloc: Global,
    shelf: &mut F,
    asked: Asked<'_>,
) -> Result<(Netlist, Spec), Stop>
    requires { HasSize (plain_source asked.source) }
    ensures files { F.files shelf.new ≡ F.files shelf.old }
    ensures loads { LoadsTexts asked.entry.settings.kind (plain_source asked.entry.source)
        (shelf_seen F.files F.fetches F.faults shelf.old)
        (shelf_seen F.files F.fetches F.faults shelf.new) result }
    ensures read_for { IfOk result (λ both. IsReadFor both.0 asked.entry.settings.kind both.1) }
{
    let kind = asked.settings.kind;
    match asked.source {
        Source::Files { netlist, spec } => load_files(alloc, shelf, netlist, spec, kind),
        Source::Multiplier { size } => load_multiplier(alloc, size, kind),
    }
}

/// What the words ask for, and what the texts of it say.
pub(crate) fn load<'a, F: Shelf>(
    alloc: Global,
    words: &'a [&'a str],
    shelf: &mut F,
) -> Result<(Asked<'a>, Netlist, Spec), Stop>
    ensures files { F.files shelf.new ≡ F.files shelf.old }
    ensures loads { Loads (texts words.entry.now)
        (shelf_seen F.files F.fetches F.faults shelf.old)
        (shelf_seen F.files F.fetches F.faults shelf.new) (loaded result) }
    ensures read_for { IfOk result (λ all. IsReadFor all.1 all.0.settings.kind all.2) }
    ensures limits { IfOk result (λ all. AreWithin all.0.settings) }
    ensures built { IfOk result (λ all. is_built all.0.settings ≡ true) }
{
    let asked = asked(alloc, words)?;
    let (netlist, spec) = load_texts(alloc, shelf, asked)?;
    Ok((asked, netlist, spec))
}
