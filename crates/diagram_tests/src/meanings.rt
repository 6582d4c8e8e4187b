//! Terms with one meaning have one edge.
use crate::terms::{POSITIVE, SHANNON, Term, X, Y, are_same, two_levels};
use diagram::Builder;
use evbdd::Evbdd;
use hdd::Hdd;
use k_star_bmd::KStarBmd;
use kind_laws::Kind;
use record_store::SoloStore;
use star_bmd::StarBmd;
use std::process::Abort;
use word_base::{Decomp, Weight};

/// Pairs of sums with one meaning.
fn check_sums<K: Kind>(rt: &impl Abort, builder: &mut Builder<K, SoloStore>) {
    let sum = Term::Sum(&X, &Y);
    let swapped = Term::Sum(&Y, &X);
    let without_y = Term::Difference(&sum, &Y);
    assert!(rt; are_same(rt, builder, &sum, &swapped));
    assert!(rt; are_same(rt, builder, &without_y, &X));
}

/// A sum taken twice.
fn check_twice<K: Kind>(rt: &impl Abort, builder: &mut Builder<K, SoloStore>) {
    let sum = Term::Sum(&X, &Y);
    let twice = Term::Multiple(Weight::TWO, &sum);
    let both = Term::Sum(&sum, &sum);
    assert!(rt; are_same(rt, builder, &both, &twice));
}

/// The negative of a sum.
fn check_negative<K: Kind>(rt: &impl Abort, builder: &mut Builder<K, SoloStore>) {
    let zero = Term::Constant(Weight::ZERO);
    let sum = Term::Sum(&X, &Y);
    let negative = Term::Negative(&sum);
    let difference = Term::Difference(&zero, &sum);
    assert!(rt; are_same(rt, builder, &negative, &difference));
}

/// A sum and its negative.
fn check_nothing<K: Kind>(rt: &impl Abort, builder: &mut Builder<K, SoloStore>) {
    let zero = Term::Constant(Weight::ZERO);
    let sum = Term::Sum(&X, &Y);
    let negative = Term::Negative(&sum);
    let nothing = Term::Sum(&sum, &negative);
    assert!(rt; are_same(rt, builder, &nothing, &zero));
}

/// Pairs of products with one meaning.
fn check_products<K: Kind>(rt: &impl Abort, builder: &mut Builder<K, SoloStore>) {
    let sum = Term::Sum(&X, &Y);
    let product = Term::Product(&X, &Y);
    let twice_product = Term::Sum(&product, &product);
    let square = Term::Product(&sum, &sum);
    let swapped = Term::Product(&Y, &X);
    let square_of_x = Term::Product(&X, &X);
    let expanded = Term::Sum(&sum, &twice_product);
    assert!(rt; are_same(rt, builder, &square_of_x, &X));
    assert!(rt; are_same(rt, builder, &product, &swapped));
    assert!(rt; are_same(rt, builder, &square, &expanded));
}

/// Pairs of terms with two meanings.
fn check_different<K: Kind>(rt: &impl Abort, builder: &mut Builder<K, SoloStore>) {
    let sum = Term::Sum(&X, &Y);
    let square = Term::Product(&sum, &sum);
    let twice = Term::Multiple(Weight::TWO, &sum);
    assert!(rt; !are_same(rt, builder, &square, &sum));
    assert!(rt; !are_same(rt, builder, &X, &Y));
    assert!(rt; !are_same(rt, builder, &sum, &twice));
}

fn check_terms<K: Kind>(rt: &impl Abort, builder: &mut Builder<K, SoloStore>) {
    check_sums(rt, builder);
    check_twice(rt, builder);
    check_negative(rt, builder);
    check_nothing(rt, builder);
    check_products(rt, builder);
    check_different(rt, builder);
}

#[test]
fn terms_with_one_meaning_have_one_edge(rt: HostRuntime) {
    for letter in [Decomp::S, Decomp::P, Decomp::N] {
        let letters = [letter, letter];
        check_terms(
            &rt,
            &mut two_levels::<Hdd>(&rt, rt.alloc(), letters, 100, 0),
        );
        check_terms(
            &rt,
            &mut two_levels::<KStarBmd>(&rt, rt.alloc(), letters, 100, 1),
        );
    }
    check_terms(
        &rt,
        &mut two_levels::<Evbdd>(&rt, rt.alloc(), SHANNON, 100, 2),
    );
    check_terms(
        &rt,
        &mut two_levels::<StarBmd>(&rt, rt.alloc(), POSITIVE, 100, 8),
    );
}
