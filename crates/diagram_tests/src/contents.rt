//! Contents of terms.
use crate::terms::{POSITIVE, SHANNON, Term, X, Y, number, two_levels};
use diagram::Builder;
use evbdd::Evbdd;
use hdd::Hdd;
use k_star_bmd::KStarBmd;
use kind_laws::Kind;
use record_store::SoloStore;
use star_bmd::StarBmd;
use std::process::Abort;
use word_base::{Decomp, Weight};

fn content_of<K: Kind>(rt: &impl Abort, builder: &mut Builder<K, SoloStore>, term: &Term) -> i128 {
    let edge = term.edge(rt, builder).expect(rt, "an edge");
    builder.content(edge).get()
}

fn check_contents<K: Kind>(rt: &impl Abort, builder: &mut Builder<K, SoloStore>) {
    let twice = Term::Multiple(number(rt, 2), &X);
    let four_times = Term::Multiple(number(rt, 4), &Y);
    let six_times = Term::Multiple(number(rt, 6), &X);
    let minus_three = Term::Constant(number(rt, -3));
    let sum = Term::Sum(&twice, &four_times);
    let zero = Term::Constant(Weight::ZERO);
    let minus_six = Term::Constant(number(rt, -6));
    let negative = Term::Negative(&six_times);
    let with_three = Term::Sum(&six_times, &minus_three);
    let greatest = Term::Constant(Weight::MAX);
    assert_eq!(rt; content_of(rt, builder, &sum), 2);
    assert_eq!(rt; content_of(rt, builder, &zero), 0);
    assert_eq!(rt; content_of(rt, builder, &minus_six), 6);
    assert_eq!(rt; content_of(rt, builder, &negative), 6);
    assert_eq!(rt; content_of(rt, builder, &with_three), 3);
    assert_eq!(rt; content_of(rt, builder, &greatest), i128::MAX);
}

#[test]
fn contents_of_terms(rt: HostRuntime) {
    for letter in [Decomp::S, Decomp::P, Decomp::N] {
        let letters = [letter, letter];
        check_contents(
            &rt,
            &mut two_levels::<Hdd>(&rt, rt.alloc(), letters, 100, 0),
        );
        check_contents(
            &rt,
            &mut two_levels::<KStarBmd>(&rt, rt.alloc(), letters, 100, 3),
        );
    }
    check_contents(
        &rt,
        &mut two_levels::<Evbdd>(&rt, rt.alloc(), SHANNON, 100, 0),
    );
    check_contents(
        &rt,
        &mut two_levels::<StarBmd>(&rt, rt.alloc(), POSITIVE, 100, 3),
    );
}
