//! Polynomials in two variables, and the builders that they are built with.
ghost use Rattle.std.specs.Prelude.{◌≡◌, ◌<◌, ◌≤◌, IfOk, true};
ghost use Rattle.tables.specs.Laws.{are_allowed};
ghost use Rattle.kind_laws.specs.Plain.{plain};
ghost use Rattle.diagram.specs.View.{IsEdge, Keeps};

use diagram::{Builder, Limit};
use kind_laws::{Edge, Kind};
use record_store::SoloStore;
use std::alloc::Global;
use std::process::Abort;
use std::test::Fail;
use word_base::{Decomp, Levels, Weight, allows};

/// A polynomial in the variables of a builder's levels.
#[derive(Drop)]
pub(crate) enum Term<'a> {
    Variable(u16),
    Constant(Weight),
    Sum(&'a Term<'a>, &'a Term<'a>),
    Difference(&'a Term<'a>, &'a Term<'a>),
    Product(&'a Term<'a>, &'a Term<'a>),
    Multiple(Weight, &'a Term<'a>),
    Negative(&'a Term<'a>),
}

pub(crate) const X: Term<'static> = Term::Variable(0);

pub(crate) const Y: Term<'static> = Term::Variable(1);

pub(crate) const SHANNON: [Decomp; 2] = [Decomp::S, Decomp::S];

pub(crate) const POSITIVE: [Decomp; 2] = [Decomp::P, Decomp::P];

pub(crate) const NEGATIVE: [Decomp; 2] = [Decomp::N, Decomp::N];

impl Term<'_> {
    pub(crate) fn edge<K: Kind>(
        &self,
        rt: &impl Abort,
        builder: &mut Builder<K, SoloStore>,
    ) -> Result<Edge<K>, Limit>
        ensures keeps { Keeps builder.old builder.new }
        ensures good { IfOk result (λ e. IsEdge K.NAME builder.new (plain K.extra_of e)) }
    {
        match self {
            Term::Variable(level) => {
                assert!(rt; *level < builder.levels());
                builder.var(*level)
            }
            Term::Constant(value) => Ok(builder.constant(*value)),
            Term::Sum(a, b) => {
                let a = a.edge(rt, builder)?;
                let b = b.edge(rt, builder)?;
                builder.add(a, b)
            }
            Term::Difference(a, b) => {
                let a = a.edge(rt, builder)?;
                let b = b.edge(rt, builder)?;
                builder.sub(a, b)
            }
            Term::Product(a, b) => {
                let a = a.edge(rt, builder)?;
                let b = b.edge(rt, builder)?;
                builder.mul(a, b)
            }
            Term::Multiple(factor, a) => {
                let a = a.edge(rt, builder)?;
                builder.scale(*factor, a)
            }
            Term::Negative(a) => {
                let a = a.edge(rt, builder)?;
                builder.neg(a)
            }
        }
    }
}

/// A builder with two levels, which remembers few results.
fn new_builder<K: Kind>(
    alloc: Global,
    letters: &[Decomp; 2],
    cells: u32,
    cache_log: u32,
) -> Result<Builder<K, SoloStore>, Fail>
    requires allowed { are_allowed K.NAME letters.now ≡ true }
    requires some { 0 < cells }
    requires within { cells ≤ 1000 }
    requires few { cache_log ≤ 8 }
{
    let levels = Levels::new(alloc, letters)?;
    let store = SoloStore::create(alloc, cells)?;
    Builder::create(alloc, store, levels, cells, cache_log).map_err(|_| Fail::from("no memory"))
}

/// A builder with two levels, which remembers few results. It looks at the letters itself, so that a test need not show that they are
/// allowed.
pub(crate) fn two_levels<K: Kind>(
    rt: &impl Abort,
    alloc: Global,
    letters: [Decomp; 2],
    cells: u32,
    cache_log: u32,
) -> Builder<K, SoloStore> {
    let [first, second] = letters;
    assert!(rt; allows(K::NAME, first));
    assert!(rt; allows(K::NAME, second));
    assert!(rt; 0 < cells);
    assert!(rt; cells <= 1000);
    assert!(rt; cache_log <= 8);
    match new_builder(alloc, &[first, second], cells, cache_log) {
        Ok(builder) => builder,
        Err(_) => rt.panic("no memory"),
    }
}

/// The edge of a term that has one. It promises nothing, so that a test has little to prove.
pub(crate) fn edge_of<K: Kind>(
    rt: &impl Abort,
    builder: &mut Builder<K, SoloStore>,
    term: &Term,
) -> Edge<K> {
    term.edge(rt, builder).expect(rt, "an edge")
}

/// The limit at which a term is given up, if it is.
pub(crate) fn limit_of<K: Kind>(
    rt: &impl Abort,
    builder: &mut Builder<K, SoloStore>,
    term: &Term,
) -> Option<Limit> {
    match term.edge(rt, builder) {
        Ok(_) => None,
        Err(limit) => Some(limit),
    }
}

/// Whether two terms have one edge.
pub(crate) fn are_same<K: Kind>(
    rt: &impl Abort,
    builder: &mut Builder<K, SoloStore>,
    one: &Term,
    other: &Term,
) -> bool {
    let one = edge_of(rt, builder, one);
    let other = edge_of(rt, builder, other);
    builder.same(one, other)
}

/// A number that is a weight.
pub(crate) fn number(rt: &impl Abort, value: i128) -> Weight {
    Weight::new(value).expect(rt, "a number in range")
}
