use super::*;
use std::process::Abort;
use std::test::Fail;

/// A key whose operands are two numbers.
fn key(op: u64, first: u64, second: u64) -> HashedKey {
    let key = CacheKey {
        op,
        first: [first, 0, 0, 0, 7],
        second: [second, 0, 0, 0, 9],
    };
    key.hashed()
}

#[test]
fn what_is_kept_last_at_a_place_is_found(rt: HostRuntime) -> Result<(), Fail> {
    let mut cache = ResultCache::create(rt.alloc(), 0)?;
    assert_eq!(rt; cache.look(&key(1, 2, 3)), None);
    cache.keep(&key(1, 2, 3), [1, 2, 3, 4, 5]);
    assert_eq!(rt; cache.look(&key(1, 2, 3)), Some([1, 2, 3, 4, 5]));
    assert_eq!(rt; cache.look(&key(1, 2, 4)), None);
    assert_eq!(rt; cache.look(&key(2, 2, 3)), None);
    cache.keep(&key(1, 2, 3), [6, 7, 8, 9, 10]);
    assert_eq!(rt; cache.look(&key(1, 2, 3)), Some([6, 7, 8, 9, 10]));
    cache.keep(&key(1, 2, 4), [0, 0, 0, 0, 1]);
    assert_eq!(rt; cache.look(&key(1, 2, 3)), None);
    assert_eq!(rt; cache.look(&key(1, 2, 4)), Some([0, 0, 0, 0, 1]));
    Ok(())
}

#[test]
fn the_greatest_cache_keeps_what_stands_apart(rt: HostRuntime) -> Result<(), Fail> {
    let mut cache = ResultCache::create(rt.alloc(), MAX_LOG)?;
    for number in 0..8 {
        cache.keep(&key(1, number, 0), [number, 0, 0, 0, 0]);
    }
    for number in 0..8 {
        assert_eq!(rt; cache.look(&key(1, number, 0)), Some([number, 0, 0, 0, 0]));
        assert_eq!(rt; cache.look(&key(2, number, 0)), None);
    }
    Ok(())
}

#[test]
fn each_place_of_a_small_cache_is_filled(rt: HostRuntime) -> Result<(), Fail> {
    let mut cache = ResultCache::create(rt.alloc(), 3)?;
    for number in 0..1000 {
        cache.keep(&key(1, number, number), [number; 5]);
        assert_eq!(rt; cache.look(&key(1, number, number)), Some([number; 5]));
    }
    let mut found: u64 = 0;
    for number in 0..1000 {
        if let Some(value) = cache.look(&key(1, number, number)) {
            assert_eq!(rt; value, [number; 5]);
            found = found.saturating_add(1);
        }
    }
    assert_eq!(rt; found, 8);
    Ok(())
}
