use super::*;
use kind_laws::{Edge, Fields, Joined, Kind, pack_body};
use std::marker::PhantomData;
use std::process::Abort;
use word_base::{Decomp, Overflow, Weight};

fn number(rt: &impl Abort, value: i128) -> Weight {
    Weight::new(value).expect(rt, "a number in range")
}

fn constant(rt: &impl Abort, value: i128) -> Edge<Evbdd> {
    Evbdd::constant(number(rt, value))
}

/// A constant's edge, taken apart and put together again.
fn put_back<K: Kind>(value: Weight) -> Result<Edge<K>, Overflow> {
    let (scale, rest) = K::take_scale(K::constant(value));
    let edge = K::put_scale(scale, rest)?;
    let (shift, rest) = K::take_shift(edge);
    let edge = K::put_shift(shift, rest)?;
    Ok(K::unpack(K::pack(edge)))
}

#[test]
fn constants_are_put_back(rt: HostRuntime) {
    for value in [0, 1, -6, i128::MAX] {
        let value = number(&rt, value);
        assert_eq!(rt; put_back(value), Ok(Evbdd::constant(value)));
    }
}

/// An edge to a node.
fn to_node(weight: Weight, node: u32) -> Edge<Evbdd> {
    Edge {
        weight,
        extra: (),
        node,
        kind: PhantomData,
    }
}

fn skip(edge: Edge<Evbdd>) -> Result<Joined<Evbdd>, Overflow> {
    Ok(Joined::Skip(edge))
}

fn made(weight: Weight, body: [u64; 8]) -> Result<Joined<Evbdd>, Overflow> {
    Ok(Joined::Node {
        weight,
        extra: (),
        body,
    })
}

#[test]
fn joins(rt: HostRuntime) {
    let five = number(&rt, 5);
    let joined = Evbdd::join(0, Decomp::S, to_node(five, 0), to_node(five, 0));
    assert_eq!(rt; joined, skip(to_node(five, 0)));
    // the low edge's weight goes up, and the difference stays at the high edge
    let joined = Evbdd::join(1, Decomp::S, to_node(five, 0), constant(&rt, 3));
    let difference = [2, 0, 0, 0, u64::MAX - 1, u64::MAX, 0, 0];
    assert_eq!(rt; joined, made(five, difference));
    // two edges of one weight to different nodes
    let joined = Evbdd::join(2, Decomp::S, to_node(five, 0), to_node(five, 3));
    assert_eq!(rt; joined, made(five, [3, 3 << 32, 0, 0, 0, 0, 0, 0]));
    let joined = Evbdd::join(0, Decomp::S, constant(&rt, -1), constant(&rt, i128::MAX));
    assert_eq!(rt; joined, Err(Overflow));
}

#[test]
fn parts_and_content(rt: HostRuntime) {
    let body = pack_body(Fields {
        level: 2,
        low: 0,
        high: 3,
        low_weight: Weight::ZERO,
        added: number(&rt, -6),
        high_weight: Weight::ZERO,
    });
    let parts = Evbdd::parts(to_node(number(&rt, 5), 9), &body, Decomp::S);
    assert_eq!(rt; parts, Ok((constant(&rt, 5), to_node(number(&rt, -1), 3))));
    let least = to_node(Weight::MAX.neg(), 9);
    assert_eq!(rt; Evbdd::parts(least, &body, Decomp::S), Err(Overflow));
    assert_eq!(rt; Evbdd::body_content(&body), number(&rt, 6));
    assert_eq!(rt; Evbdd::edge_content(constant(&rt, -1)), Weight::ONE);
    let shifted = Evbdd::put_shift(Weight::ONE, to_node(number(&rt, -1), 3));
    assert_eq!(rt; shifted, Ok(to_node(Weight::ZERO, 3)));
}
