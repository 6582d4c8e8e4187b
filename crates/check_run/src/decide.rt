ghost use Rattle.std.specs.Prelude.{◌≡◌, ◌<◌, ◌≤◌, length, true, IfOk};
ghost use Rattle.diagram.specs.View.{View};
ghost use Rattle.check_run.specs.Deciding.{verdict_at, verdict_of_limit, HasBuilt};
ghost use Rattle.check_run.specs.Verdicts.{AreReported, IsReported};
ghost use Rattle.check_run.specs.Words.{is_built};
ghost use Rattle.cone_builder.specs.Sides.{AreSides};
ghost use Rattle.kind_laws.specs.Plain.{plain};
ghost use Rattle.settings.specs.Limits.{AreWithin};
ghost use Rattle.settings.specs.declared.limits.TheConstants.{MOST_CELLS};
ghost use Rattle.spec_grammar.specs.ReadFor.{IsReadFor};
ghost use Rattle.spec_lang.specs.WellFormed.{IsOver};
ghost use Rattle.tables.specs.Laws.{are_allowed};

use checks::Verdict;
use cone_builder::{BuildError, build_one};
use counterexample::first_difference;
use diagram::Builder;
use evbdd::Evbdd;
use hdd::Hdd;
use k_star_bmd::KStarBmd;
use kind_laws::{Edge, Kind};
use netlist::Netlist;
use outside::Gate;
use record_store::SoloStore;
use settings::Settings;
use spec_lang::{EvalError, Spec};
use star_bmd::StarBmd;
use std::alloc::{AllocError, Global};
use word_base::{Assign, KindName, Levels, LevelsFault, Weight};

/// The logarithm of how many results a check's builder remembers at most.
const CACHE_LOG: u32 = 16;

/// The levels of the inputs.
fn levels_of(alloc: Global, spec: &Spec) -> Result<Levels, AllocError>
    requires { length spec.now.order ≤ 256 }
    ensures letters { IfOk result (λ levels. levels ≡ spec.now.letters) }
    ensures as_many { IfOk result (λ levels. length levels ≡ length spec.now.order) }
{
    let count = spec.order().len() as u32;
    let mut letters = Vec::new(alloc);
    for level in 0..count {
        letters.push(spec.letter(level))?;
    }
    match Levels::new(alloc, &letters) {
        Ok(levels) => Ok(levels),
        Err(LevelsFault::TooMany) => unreachable!(),
        Err(LevelsFault::Memory) => Err(AllocError),
    }
}

/// The verdict where the sides differ first at this assignment, from both values there.
fn verdict_at(
    at: Assign,
    values: Result<(Weight, Weight), EvalError>,
) -> Result<Verdict, AllocError>
    ensures { result ≡ verdict_at at values }
{
    match values {
        Ok((left, right)) => Ok(Verdict::Different { left, right, at }),
        Err(EvalError::Overflow) => Ok(Verdict::Overflow),
        Err(EvalError::Memory) => Err(AllocError),
    }
}

/// The verdict where the sides were not built, or the walk over them was refused.
fn verdict_of_limit(error: BuildError) -> Result<Verdict, AllocError>
    ensures { result ≡ verdict_of_limit error }
{
    match error {
        BuildError::Overflow => Ok(Verdict::Overflow),
        BuildError::Full => Ok(Verdict::Full),
        BuildError::Memory => Err(AllocError),
    }
}

/// Whether both sides are the same, and else the first assignment where they differ.
fn compare<K: Kind>(
    alloc: Global,
    builder: &mut Builder<K, SoloStore>,
    netlist: &Netlist,
    spec: &Spec,
    check: u32,
    sides: (Edge<K>, Edge<K>),
) -> Result<Verdict, AllocError>
    requires over { IsOver netlist.now spec.now }
    requires check { check < length spec.now.checks }
    requires levels { length builder.old.letters ≡ length spec.now.order }
    requires built { HasBuilt K.NAME netlist.now spec.now check builder.old }
    requires sides { AreSides K.NAME netlist.now spec.now check builder.old (plain K.extra_of sides.0) (plain K.extra_of sides.1) }
    ensures { IfOk result (λ verdict. IsReported K.NAME builder.old.store.room netlist.now spec.now check verdict) }
{
    let (left, right) = sides;
    if builder.same(left, right) {
        return Ok(Verdict::Equal {
            nodes: builder.count(left),
        });
    }
    let mut at = Assign::new(alloc, builder.levels())?;
    match first_difference(builder, 0, left, right, &mut at) {
        Ok(()) => {
            let values = spec.evaluate(check, netlist, &at);
            verdict_at(at, values)
        }
        Err(limit) => {
            let _known = builder.store().len();
            verdict_of_limit(BuildError::from(limit))
        }
    }
}

/// What is answered to a check, by diagrams of a kind that allows the letter of each level.
fn decide_by<K: Kind>(
    alloc: Global,
    cells: u32,
    netlist: &Netlist,
    spec: &Spec,
    check: u32,
) -> Result<Verdict, AllocError>
    requires over { IsOver netlist.now spec.now }
    requires check { check < length spec.now.checks }
    requires allowed { are_allowed K.NAME spec.now.letters ≡ true }
    requires some { 0 < cells }
    requires few { cells ≤ MOST_CELLS }
    ensures { IfOk result (λ verdict. IsReported K.NAME cells netlist.now spec.now check verdict) }
{
    let _inputs = netlist.inputs();
    let levels = levels_of(alloc, spec)?;
    let store = SoloStore::create(alloc, cells)?;
    let mut builder = match Builder::<K, SoloStore>::create(
        alloc, store, levels, cells, CACHE_LOG,
    ) {
        Ok(builder) => builder,
        Err(_) => return Err(AllocError),
    };
    match build_one(alloc, &mut builder, netlist, spec, check) {
        Ok(sides) => compare(alloc, &mut builder, netlist, spec, check, sides),
        Err(error) => {
            let _known = builder.store().len();
            verdict_of_limit(error)
        }
    }
}

/// What is answered to a check, by diagrams of the kind of the settings.
fn decide(
    alloc: Global,
    settings: Settings,
    netlist: &Netlist,
    spec: &Spec,
    check: u32,
) -> Result<Verdict, AllocError>
    requires over { IsOver netlist.now spec.now }
    requires check { check < length spec.now.checks }
    requires allowed { are_allowed settings.kind spec.now.letters ≡ true }
    requires limits { AreWithin settings }
    ensures { IfOk result (λ verdict. IsReported settings.kind settings.cells netlist.now spec.now check verdict) }
{
    let cells = settings.cells;
    match settings.kind {
        KindName::Evbdd => decide_by::<Evbdd>(alloc, cells, netlist, spec, check),
        KindName::StarBmd => decide_by::<StarBmd>(alloc, cells, netlist, spec, check),
        KindName::Hdd => decide_by::<Hdd>(alloc, cells, netlist, spec, check),
        KindName::KStarBmd => decide_by::<KStarBmd>(alloc, cells, netlist, spec, check),
    }
}

/// What is answered to the check of this number, counted from 0, with a builder and a store of its own. The
/// specification was read for the kind, and the settings are those of a run that is built: forward, with one worker.
/// The gate is for runs of several workers.
///
/// `Err` is want of memory.
pub fn check_one<G: Gate>(
    alloc: Global,
    netlist: &Netlist,
    spec: &Spec,
    check: u32,
    settings: Settings,
    _gate: &G,
) -> Result<Verdict, AllocError>
    requires read_for { IsReadFor netlist.now settings.kind spec.now }
    requires check { check < length spec.now.checks }
    requires limits { AreWithin settings }
    requires built { is_built settings ≡ true }
    ensures { IfOk result (λ verdict. IsReported settings.kind settings.cells netlist.now spec.now check verdict) }
{
    decide(alloc, settings, netlist, spec, check)
}

/// What is answered to each check, with these settings.
pub(crate) fn decide_all<G: Gate>(
    alloc: Global,
    netlist: &Netlist,
    spec: &Spec,
    settings: Settings,
    gate: &G,
) -> Result<Vec<Verdict>, AllocError>
    requires read_for { IsReadFor netlist.now settings.kind spec.now }
    requires limits { AreWithin settings }
    requires built { is_built settings ≡ true }
    ensures { IfOk result (λ verdicts. AreReported settings.kind settings.cells netlist.now spec.now verdicts.items) }
{
    let mut verdicts = Vec::new(alloc);
    for check in 0..spec.checks() {
        verdicts.push(check_one(alloc, netlist, spec, check, settings, gate)?)?;
    }
    Ok(verdicts)
}
