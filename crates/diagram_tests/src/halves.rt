//! Halves of the tables of edges.
ghost use Rattle.std.specs.Prelude.{IfOk};
ghost use Rattle.kind_laws.specs.Plain.{plain};
ghost use Rattle.diagram.specs.View.{IsEdge};

use crate::terms::{NEGATIVE, POSITIVE, SHANNON, Term, X, Y, edge_of, two_levels};
use diagram::{Builder, Limit};
use evbdd::Evbdd;
use hdd::Hdd;
use k_star_bmd::KStarBmd;
use kind_laws::{Edge, Kind};
use record_store::SoloStore;
use star_bmd::StarBmd;
use std::process::Abort;
use word_base::{Decomp, Overflow, Weight};

/// The half of an edge at a level that is not below its node.
fn half_at<K: Kind>(
    rt: &impl Abort,
    builder: &mut Builder<K, SoloStore>,
    edge: Edge<K>,
    level: u16,
    bit: bool,
) -> Result<Edge<K>, Limit>
    requires { IsEdge K.NAME builder.old (plain K.extra_of edge) }
    ensures { IfOk result (λ e. IsEdge K.NAME builder.new (plain K.extra_of e)) }
{
    assert!(rt; level < builder.levels());
    assert!(rt; level <= builder.top(edge));
    builder.cofactor(edge, level, bit)
}

/// The half of a term at level 0 where its variable is 1.
fn half_of<K: Kind>(rt: &impl Abort, builder: &mut Builder<K, SoloStore>, term: &Term) -> Edge<K> {
    let edge = term.edge(rt, builder).expect(rt, "an edge");
    half_at(rt, builder, edge, 0, true).expect(rt, "a half")
}

/// No two of a variable and what it lacks to 1 are 1 together.
#[test]
fn cofactor_of_a_product_of_complements(rt: HostRuntime) {
    let mut builder = two_levels::<Hdd>(&rt, rt.alloc(), NEGATIVE, 100, 0);
    let one = Term::Constant(Weight::ONE);
    let not_x = Term::Difference(&one, &X);
    let not_y = Term::Difference(&one, &Y);
    let half = half_of(&rt, &mut builder, &Term::Product(&not_x, &not_y));
    let zero = builder.constant(Weight::ZERO);
    assert!(&rt; builder.same(half, zero));
}

/// The sum of an edge and a multiple of a term.
fn one_more<K: Kind>(
    rt: &impl Abort,
    builder: &mut Builder<K, SoloStore>,
    sum: Edge<K>,
    factor: Weight,
    term: &Term,
) -> Result<Edge<K>, Limit>
    requires { IsEdge K.NAME builder.old (plain K.extra_of sum) }
    ensures { IfOk result (λ e. IsEdge K.NAME builder.new (plain K.extra_of e)) }
{
    let multiple = Term::Multiple(factor, term).edge(rt, builder)?;
    builder.add(sum, multiple)
}

/// The polynomial with these coefficients of 1, X, Y and X*Y.
fn polynomial<K: Kind>(
    rt: &impl Abort,
    builder: &mut Builder<K, SoloStore>,
    coefficients: &[Weight; 4],
) -> Result<Edge<K>, Limit>
    ensures { IfOk result (λ e. IsEdge K.NAME builder.new (plain K.extra_of e)) }
{
    let sum = builder.constant(coefficients[0]);
    let sum = one_more(rt, builder, sum, coefficients[1], &X)?;
    let sum = one_more(rt, builder, sum, coefficients[2], &Y)?;
    let product = Term::Product(&X, &Y);
    one_more(rt, builder, sum, coefficients[3], &product)
}

/// The value of that polynomial.
fn value(coefficients: &[Weight; 4], x: bool, y: bool) -> Result<Weight, Overflow> {
    let at_x = if x { coefficients[1] } else { Weight::ZERO };
    let at_y = if y { coefficients[2] } else { Weight::ZERO };
    let at_both = if x && y {
        coefficients[3]
    } else {
        Weight::ZERO
    };
    coefficients[0].add(at_x)?.add(at_y)?.add(at_both)
}

/// The half of a half of a polynomial.
fn entry_of<K: Kind>(
    rt: &impl Abort,
    builder: &mut Builder<K, SoloStore>,
    coefficients: &[Weight; 4],
    x: bool,
    y: bool,
) -> Edge<K> {
    let whole = polynomial(rt, builder, coefficients).expect(rt, "a polynomial");
    let half = half_at(rt, builder, whole, 0, x).expect(rt, "a half");
    half_at(rt, builder, half, 1, y).expect(rt, "an entry")
}

/// Stops where the half of a half of a polynomial is not its value.
fn check_value<K: Kind>(
    rt: &impl Abort,
    builder: &mut Builder<K, SoloStore>,
    coefficients: &[Weight; 4],
    x: bool,
    y: bool,
) {
    let value = value(coefficients, x, y).expect(rt, "in range");
    let wanted = edge_of(rt, builder, &Term::Constant(value));
    let entry = entry_of(rt, builder, coefficients, x, y);
    assert!(rt; builder.same(entry, wanted));
}

/// The next number of a sequence that looks random.
fn next(state: u64) -> u64 {
    let state = state ^ (state << 13);
    let state = state ^ (state >> 7);
    state ^ (state << 17)
}

fn random_weight(state: u64) -> Weight {
    match state % 5 {
        0 => Weight::ZERO,
        1 => Weight::ONE,
        2 => Weight::TWO,
        3 => Weight::ONE.neg(),
        _ => Weight::TWO.neg(),
    }
}

/// Each value of a polynomial, by two halves.
fn check_values<K: Kind>(
    rt: &impl Abort,
    builder: &mut Builder<K, SoloStore>,
    coefficients: &[Weight; 4],
) {
    for (x, y) in [(false, false), (false, true), (true, false), (true, true)] {
        check_value(rt, builder, coefficients, x, y);
    }
}

/// The values of random polynomials.
fn check_halves<K: Kind>(rt: &impl Abort, builder: &mut Builder<K, SoloStore>) {
    let mut state = 88_172_645_463_325_252;
    for _ in 0..8 {
        let coefficients = [
            random_weight(state >> 8),
            random_weight(state >> 20),
            random_weight(state >> 32),
            random_weight(state >> 44),
        ];
        check_values(rt, builder, &coefficients);
        state = next(state);
    }
}

#[test]
fn halves_of_halves_are_values(rt: HostRuntime) {
    for first in [Decomp::S, Decomp::P, Decomp::N] {
        for second in [Decomp::S, Decomp::P, Decomp::N] {
            let letters = [first, second];
            check_halves(
                &rt,
                &mut two_levels::<Hdd>(&rt, rt.alloc(), letters, 1000, 1),
            );
            check_halves(
                &rt,
                &mut two_levels::<KStarBmd>(&rt, rt.alloc(), letters, 1000, 2),
            );
        }
    }
    check_halves(
        &rt,
        &mut two_levels::<Evbdd>(&rt, rt.alloc(), SHANNON, 1000, 8),
    );
    check_halves(
        &rt,
        &mut two_levels::<StarBmd>(&rt, rt.alloc(), POSITIVE, 1000, 0),
    );
}
