use super::*;
use std::process::Abort;
use std::test::Fail;

const LOWER_NODE: [u64; 8] = [2, 0, 0, 0, 0, 0, 1, 0];

const UPPER_NODE: [u64; 8] = [1, 1, 1, 0, 0, 0, 1, 0];

/// Interns a body and reads it back, in any store.
fn id_of<S: Store>(rt: &impl Abort, store: &mut S, body: &[u64; 8]) -> Result<u32, StoreFull> {
    let id = store.intern(body)?;
    assert_eq!(rt; store.fields(id), *body);
    Ok(id)
}

#[test]
fn starts(rt: HostRuntime) {
    assert_eq!(rt; start(&LOWER_NODE, 16), 2);
    assert_eq!(rt; start(&UPPER_NODE, 1000), 791);
    assert_eq!(rt; start(&[1, 2, 3, 4, 5, 6, 7, 8], 2_097_152), 1_372_372);
    assert_eq!(rt; start(&[u64::MAX; 8], 2_097_152), 1_449_855);
}

#[test]
fn one_cell_holds_one_body(rt: HostRuntime) -> Result<(), Fail> {
    let mut store = SoloStore::create(rt.alloc(), 1)?;
    assert!(rt; store.is_empty());
    assert_eq!(rt; id_of(&rt, &mut store, &LOWER_NODE), Ok(1));
    assert_eq!(rt; id_of(&rt, &mut store, &LOWER_NODE), Ok(1));
    assert_eq!(rt; id_of(&rt, &mut store, &UPPER_NODE), Err(StoreFull));
    assert_eq!(rt; id_of(&rt, &mut store, &LOWER_NODE), Ok(1));
    assert_eq!(rt; store.len(), 1);
    Ok(())
}

#[test]
fn each_cell_is_filled(rt: HostRuntime) -> Result<(), Fail> {
    let mut store = SoloStore::create(rt.alloc(), 1000)?;
    for round in 0..2 {
        for id in 1..1001 {
            let body = [7, u64::from(id), 0, 0, 0, 0, 1, 0];
            assert_eq!(rt; id_of(&rt, &mut store, &body), Ok(id), "in round {round}");
        }
        assert_eq!(rt; store.len(), 1000);
        assert_eq!(rt; id_of(&rt, &mut store, &LOWER_NODE), Err(StoreFull));
    }
    Ok(())
}

/// The next body after a number whose path begins at the last of four buckets.
fn body_after(number: u64) -> Option<[u64; 8]> {
    for last_word in number..number.saturating_add(1000) {
        let body = [1, 0, 0, 0, 0, 0, 0, last_word];
        if start(&body, 4) == 3 {
            return Some(body);
        }
    }
    None
}

#[test]
fn paths_go_on_at_bucket_0(rt: HostRuntime) -> Result<(), Fail> {
    let first = body_after(0).ok_or("no body")?;
    let second = body_after(first[7].saturating_add(1)).ok_or("no second body")?;
    let mut store = SoloStore::create(rt.alloc(), 2)?;
    for _ in 0..2 {
        assert_eq!(rt; id_of(&rt, &mut store, &first), Ok(1));
        assert_eq!(rt; id_of(&rt, &mut store, &second), Ok(2));
    }
    assert_eq!(rt; id_of(&rt, &mut store, &LOWER_NODE), Err(StoreFull));
    Ok(())
}
