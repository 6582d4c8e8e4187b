#![tactic(auto, using(unique_table::proofs::Tables::one_table))]

ghost use Rattle.std.specs.Prelude.{◌<◌, IfSome};
ghost use Rattle.std.specs.List.{All};
ghost use Rattle.unique_table.specs.Values.{IsOf};

use record_store::{SoloStore, Store, StoreFull};
use std::process::Abort;
use std::test::Fail;
use unique_table::{PassToken, SharedPass, SharedTable, start};

/// The pass of the last token.
pub(super) fn next_pass<'t>(
    table: &'t SharedTable,
    tokens: &mut Vec<PassToken>,
) -> Option<SharedPass<'t>>
    requires { All (IsOf table.now) tokens.old.items }
    ensures rest { All (IsOf table.now) tokens.new.items }
    ensures pass { IfSome result (λ p. IsOf table.now p) }
{
    let token = tokens.pop()?;
    Some(table.pass(token))
}

pub(super) fn node(k: u64) -> [u64; 8] {
    [k, 0, 0, 0, 0, 0, 1, 0]
}

/// Interns a body and reads it back, in any store.
pub(super) fn id_of<S: Store>(
    rt: &impl Abort,
    store: &mut S,
    body: &[u64; 8],
) -> Result<u32, StoreFull> {
    let id = store.intern(body)?;
    assert_eq!(rt; store.fields(id), *body);
    Ok(id)
}

/// Interns the bodies from 2 to 257, which take the cells of a chunk, and no other.
fn fill<'t>(rt: &impl Abort, table: &'t SharedTable, mut pass: SharedPass<'t>) -> SharedPass<'t>
    requires { IsOf table.now pass }
    ensures { IsOf table.now result }
{
    for k in 2..258u32 {
        let id = pass.intern(&node(u64::from(k)));
        assert_eq!(rt; id, Ok(255 + k), "at {k}");
    }
    let full = pass.intern(&node(258));
    assert_eq!(rt; full, Err(StoreFull));
    pass
}

/// Takes in a pass that is full, after a further body.
fn meet_full<'t>(
    rt: &impl Abort,
    table: &'t SharedTable,
    mut first: SharedPass<'t>,
    second: SharedPass<'t>,
) -> SharedPass<'t>
    requires first { IsOf table.now first }
    requires second { IsOf table.now second }
{
    let one = first.intern(&node(1));
    let second = fill(rt, table, second);
    let last = first.intern(&node(258));
    first.meet(second);
    assert_eq!(rt; one, Ok(1));
    assert_eq!(rt; last, Ok(2));
    first
}

#[test]
fn a_full_table(rt: HostRuntime) -> Result<(), Fail> {
    let (table, mut tokens) = SharedTable::create(rt.alloc(), 512, 2)?;
    let first = next_pass(&table, &mut tokens).ok_or("no token")?;
    let second = next_pass(&table, &mut tokens).ok_or("no second token")?;
    let mut pass = meet_full(&rt, &table, first, second);
    assert_eq!(rt; pass.unused(), 254);
    let mut solo = SoloStore::create(rt.alloc(), 512)?;
    for k in 1..259u32 {
        let id = id_of(&rt, &mut pass, &node(u64::from(k))).unwrap_or(0);
        assert_eq!(rt; solo.intern(&node(u64::from(id))), Ok(k), "at {k}");
    }
    assert_eq!(rt; solo.len(), 258);
    Ok(())
}

#[test]
fn a_split(rt: HostRuntime) -> Result<(), Fail> {
    let (table, mut tokens) = SharedTable::create(rt.alloc(), 256, 1)?;
    let mut pass = next_pass(&table, &mut tokens).ok_or("no token")?;
    let id = pass.intern(&node(2));
    assert_eq!(rt; pass.unused(), 255);
    let mut other = pass.split();
    assert_eq!(rt; other.intern(&node(2)), id);
    assert_eq!(rt; other.unused(), 0);
    assert_eq!(rt; other.intern(&node(3)), Err(StoreFull));
    pass.meet(other);
    assert_eq!(rt; pass.intern(&node(3)), Ok(2));
    Ok(())
}

/// The next body after a number whose path begins at the last of 1,024 buckets.
fn body_after(number: u64) -> Option<[u64; 8]> {
    for last_word in number..number.saturating_add(100_000) {
        let body = [1, 0, 0, 0, 0, 0, 0, last_word];
        if start(&body, 1024) == 1023 {
            return Some(body);
        }
    }
    None
}

#[test]
fn paths_go_on_at_bucket_0(rt: HostRuntime) -> Result<(), Fail> {
    let first = body_after(0).ok_or("no body")?;
    let second = body_after(first[7].saturating_add(1)).ok_or("no second body")?;
    let (table, mut tokens) = SharedTable::create(rt.alloc(), 512, 1)?;
    let mut pass = next_pass(&table, &mut tokens).ok_or("no token")?;
    for _ in 0..2 {
        assert_eq!(rt; id_of(&rt, &mut pass, &first), Ok(1));
        assert_eq!(rt; id_of(&rt, &mut pass, &second), Ok(2));
    }
    Ok(())
}
