use super::*;
use word_base::Weight;

#[test]
fn bodies_of_the_half_adder(rt: HostRuntime) {
    let zero = Weight::ZERO;
    let lower = pack_body(Fields {
        level: 1,
        low: 0,
        high: 0,
        low_weight: zero,
        added: zero,
        high_weight: Weight::ONE,
    });
    assert_eq!(rt; lower, [2, 0, 0, 0, 0, 0, 1, 0]);
    let upper = pack_body(Fields {
        level: 0,
        low: 1,
        high: 0,
        low_weight: Weight::ONE,
        added: zero,
        high_weight: Weight::ONE,
    });
    assert_eq!(rt; upper, [1, 1, 1, 0, 0, 0, 1, 0]);
}

#[test]
fn bodies_are_read_back(rt: HostRuntime) {
    let least = Weight::MAX.neg();
    let minus_one = Weight::ONE.neg();
    for (level, low, high, low_weight, added, high_weight) in [
        (0, 1, 0, Weight::ONE, Weight::ZERO, minus_one),
        (4351, 7, u32::MAX, Weight::MAX, minus_one, least),
        (u16::MAX, u32::MAX, 3, minus_one, least, Weight::MAX),
    ] {
        let body = pack_body(Fields {
            level,
            low,
            high,
            low_weight,
            added,
            high_weight,
        });
        assert_eq!(rt; level_of(&body), level);
        assert_eq!(rt; children(&body), (low, high));
        assert_eq!(rt; low_weight_of(&body), low_weight);
        assert_eq!(rt; added_of(&body), added);
        assert_eq!(rt; high_weight_of(&body), high_weight);
    }
}

#[test]
fn words_of_edges(rt: HostRuntime) {
    let words = pack_edge(Weight::ONE.neg(), Weight::TWO, 7);
    assert_eq!(rt; words, [u64::MAX, u64::MAX, 2, 0, 7]);
    let least = Weight::MAX.neg();
    let words = pack_edge(Weight::MAX, least, u32::MAX);
    assert_eq!(rt; unpack_edge(words), (Weight::MAX, least, u32::MAX));
}
