use super::*;
use kind_laws::{Edge, Fields, Joined, Kind, pack_body};
use std::marker::PhantomData;
use std::process::Abort;
use word_base::{Decomp, Overflow, Weight};

fn number(rt: &impl Abort, value: i128) -> Weight {
    Weight::new(value).expect(rt, "a number in range")
}

fn to_node(rt: &impl Abort, weight: i128, node: u32) -> Edge<StarBmd> {
    Edge {
        weight: number(rt, weight),
        extra: (),
        node,
        kind: PhantomData,
    }
}

/// A constant's edge, taken apart and put together again.
fn put_back<K: Kind>(value: Weight) -> Result<Edge<K>, Overflow> {
    let (scale, rest) = K::take_scale(K::constant(value));
    let edge = K::put_scale(scale, rest)?;
    let (shift, rest) = K::take_shift(edge);
    let edge = K::put_shift(shift, rest)?;
    Ok(K::unpack(K::pack(edge)))
}

#[test]
fn constants_are_put_back(rt: HostRuntime) {
    for value in [0, 1, -6, i128::MAX] {
        let value = number(&rt, value);
        assert_eq!(rt; put_back(value), Ok(StarBmd::constant(value)));
    }
}

/// Two edges join to the edge with this weight to the node with this body.
fn join_to_node(
    rt: &impl Abort,
    (w0, v0): (i128, u32),
    (w1, v1): (i128, u32),
    divisor: i128,
    body: [u64; 8],
) {
    let joined = StarBmd::join(1, Decomp::P, to_node(rt, w0, v0), to_node(rt, w1, v1));
    let weight = number(rt, divisor);
    let extra = ();
    let made = Joined::Node {
        weight,
        extra,
        body,
    };
    assert_eq!(rt; joined, Ok(made));
}

#[test]
fn joins(rt: HostRuntime) {
    let skip = StarBmd::join(1, Decomp::P, to_node(&rt, 5, 3), to_node(&rt, 0, 0));
    assert_eq!(rt; skip, Ok(Joined::Skip(to_node(&rt, 5, 3))));
    let (top, minus_two) = (u64::MAX, u64::MAX - 1);
    for (low, high, divisor, body) in [
        ((4, 0), (6, 0), 2, [2, 0, 2, 0, 0, 0, 3, 0]),
        // the divisor has the sign of the low weight, and that of the high one where the low one is 0
        ((-2, 0), (4, 0), -2, [2, 0, 1, 0, 0, 0, minus_two, top]),
        ((2, 0), (-4, 0), 2, [2, 0, 1, 0, 0, 0, minus_two, top]),
        ((0, 0), (-3, 7), -3, [2, 7 << 32, 0, 0, 0, 0, 1, 0]),
        // two same edges are no skip
        ((5, 3), (5, 3), 5, [2, 3 + (3 << 32), 1, 0, 0, 0, 1, 0]),
        ((9, 4), (1, 0), 1, [2, 4, 9, 0, 0, 0, 1, 0]),
        (
            (-i128::MAX, 4),
            (i128::MAX, 0),
            -i128::MAX,
            [2, 4, 1, 0, 0, 0, top, top],
        ),
    ] {
        join_to_node(&rt, low, high, divisor, body);
    }
}

/// The parts of an edge of this weight to a node whose edges have these weights, and lead to nodes 0 and 3.
fn parts(
    rt: &impl Abort,
    weight: i128,
    w0: i128,
    w1: i128,
) -> Result<(Edge<StarBmd>, Edge<StarBmd>), Overflow> {
    let body = pack_body(Fields {
        level: 2,
        low: 0,
        high: 3,
        low_weight: number(rt, w0),
        added: Weight::ZERO,
        high_weight: number(rt, w1),
    });
    StarBmd::parts(to_node(rt, weight, 9), &body, Decomp::P)
}

#[test]
fn parts_are_products(rt: HostRuntime) {
    for (weight, w0, w1, low, high) in [
        (-5, 2, -3, -10, 15),
        (7, 0, 1, 0, 7),
        (-i128::MAX, 1, -1, -i128::MAX, i128::MAX),
    ] {
        let wanted = (to_node(&rt, low, 0), to_node(&rt, high, 3));
        assert_eq!(rt; parts(&rt, weight, w0, w1), Ok(wanted));
    }
    assert_eq!(rt; parts(&rt, 1 << 126, 2, 1), Err(Overflow));
    assert_eq!(rt; parts(&rt, 1 << 126, 1, -2), Err(Overflow));
}

#[test]
fn factors(rt: HostRuntime) {
    let taken = StarBmd::take_scale(to_node(&rt, -6, 3));
    assert_eq!(rt; taken, (number(&rt, -6), to_node(&rt, 1, 3)));
    let put = StarBmd::put_scale(number(&rt, -2), to_node(&rt, -6, 3));
    assert_eq!(rt; put, Ok(to_node(&rt, 12, 3)));
    // 0 times an edge to a node is the constant 0
    let none = StarBmd::put_scale(Weight::ZERO, to_node(&rt, -6, 3));
    assert_eq!(rt; none, Ok(to_node(&rt, 0, 0)));
    let large = StarBmd::put_scale(Weight::TWO, to_node(&rt, 1 << 126, 3));
    assert_eq!(rt; large, Err(Overflow));
}

#[test]
fn summands_and_content(rt: HostRuntime) {
    let taken = StarBmd::take_shift(to_node(&rt, -6, 3));
    assert_eq!(rt; taken, (Weight::ZERO, to_node(&rt, -6, 3)));
    let put = StarBmd::put_shift(Weight::ZERO, to_node(&rt, -6, 3));
    assert_eq!(rt; put, Ok(to_node(&rt, -6, 3)));
    let content = StarBmd::edge_content(to_node(&rt, -6, 3));
    assert_eq!(rt; content, number(&rt, 6));
    let body = pack_body(Fields {
        level: 2,
        low: 0,
        high: 3,
        low_weight: Weight::TWO,
        added: Weight::ZERO,
        high_weight: Weight::ONE,
    });
    assert_eq!(rt; StarBmd::body_content(&body), Weight::ZERO);
}
