#![tactic(auto, using(unique_table::proofs::Tables::one_table))]

ghost use Rattle.std.specs.Prelude.{◌≡◌, ◌≤◌, ◌%◌};
ghost use denote.Param.Send.{IsSync};
ghost use Rattle.table_rule.specs.Stores.{AreOfOneTable};
ghost use Rattle.unique_table.specs.Passes.{pass_view, IsOneTable};

use super::tests::{id_of, next_pass, node};
use record_store::{SoloStore, Store, StoreFull};
use std::alloc::{AllocError, Global};
use std::process::Abort;
use std::sync::atomic::{AtomicU32, Ordering};
use std::test::Fail;
use std::thread::{Threads, join, join_mut};
use unique_table::{CHUNK, MAX_CELLS, SharedPass, SharedTable};

/// How many bodies each thread interns.
const BODIES: u64 = 10_000;

/// Notes the id of a body, and says whether it is the one that others have noted.
fn note(ids: &[AtomicU32], number: u64, id: u32) -> bool {
    let Some(place) = ids.get(number as usize) else {
        return false;
    };
    match place.compare_exchange(0, id, Ordering::SeqCst, Ordering::SeqCst) {
        Ok(_) => true,
        Err(found) => found == id,
    }
}

/// Interns the bodies of a thread, which begin so many behind those of the thread before, in an order of its own, and notes
/// their ids. It says whether they are those that others have noted.
fn work(pass: &mut SharedPass, thread: u64, shift: u64, ids: &[AtomicU32]) -> bool {
    let first = thread.wrapping_mul(shift);
    let stride = thread.wrapping_mul(10).wrapping_add(7);
    let mut agree = true;
    for k in 0..BODIES {
        let number = first.wrapping_add(k.wrapping_mul(stride) % BODIES);
        if let Ok(id) = pass.intern(&node(number)) {
            agree = agree && note(ids, number, id);
        }
    }
    agree
}

/// Lets as many threads work as 2 to this power, each with a pass that was split off, and says whether they agree.
fn spread<R: Threads + Sync>(
    rt: &R,
    mut pass: SharedPass,
    power: u32,
    thread: u64,
    shift: u64,
    ids: &[AtomicU32],
) -> bool {
    if power == 0 {
        return work(&mut pass, thread, shift, ids);
    }
    let right = pass.split();
    let less = power - 1;
    let first = thread.wrapping_mul(2);
    let second = first.wrapping_add(1);
    let (a, b) = join(
        rt,
        move || -> bool
            requires { IsSync R.row }
        { spread(rt, pass, less, first, shift, ids) },
        move || -> bool
            requires { IsSync R.row }
        { spread(rt, right, less, second, shift, ids) },
    );
    a && b
}

/// A place for the id of each body.
fn places(alloc: Global, count: u64) -> Result<Vec<AtomicU32>, AllocError> {
    let mut ids = Vec::new(alloc);
    for _ in 0..count {
        ids.push(AtomicU32::new(0))?;
    }
    Ok(ids)
}

/// How many ids were noted.
fn noted(ids: &[AtomicU32]) -> usize {
    let mut count = 0usize;
    for id in ids {
        if id.load(Ordering::SeqCst) != 0 {
            count = count.wrapping_add(1);
        }
    }
    count
}

/// Whether the pass gives each body the id that was noted, under which it is read back, and whether these ids are as many
/// as a store of one thread gives.
fn check_all(
    rt: &impl Abort,
    pass: &mut SharedPass,
    solo: &mut SoloStore,
    names: &mut SoloStore,
    ids: &[AtomicU32],
) {
    for (number, place) in ids.iter().enumerate() {
        let body = node(number as u64);
        let id = place.load(Ordering::SeqCst);
        assert_eq!(rt; id_of(rt, pass, &body), Ok(id), "at {number}");
        let own = id_of(rt, solo, &body);
        assert_eq!(rt; id_of(rt, names, &node(u64::from(id))), own, "at {number}");
    }
}

/// Threads intern bodies in orders of their own. All ids are those of a store of one thread, in another order.
fn try_threads<R: Threads + Abort + Sync>(
    rt: &R,
    alloc: Global,
    power: u32,
    shift: u64,
    count: u64,
    cells: u32,
) -> Result<(), Fail>
    requires some { CHUNK ≤ cells }
    requires chunks { cells % CHUNK ≡ 0 }
    requires few { cells ≤ MAX_CELLS }
{
    let ids = places(alloc, count)?;
    let (table, mut tokens) = SharedTable::create(alloc, cells, 1)?;
    let mut pass = next_pass(&table, &mut tokens).ok_or("no token")?;
    assert!(rt; spread(rt, pass.split(), power, 0, shift, ids.as_slice()));
    let mut solo = SoloStore::create(alloc, cells)?;
    let mut names = SoloStore::create(alloc, cells)?;
    check_all(rt, &mut pass, &mut solo, &mut names, ids.as_slice());
    assert_eq!(rt; u64::from(names.len()), count);
    Ok(())
}

#[test]
fn same_bodies(rt: HostRuntime) -> Result<(), Fail> {
    for power in [1, 2, 4] {
        try_threads(&rt, rt.alloc(), power, 0, BODIES, 16_384)?;
    }
    Ok(())
}

#[test]
fn overlapping_bodies(rt: HostRuntime) -> Result<(), Fail> {
    try_threads(&rt, rt.alloc(), 1, 500, 10_500, 16_384)?;
    try_threads(&rt, rt.alloc(), 2, 500, 11_500, 16_384)?;
    try_threads(&rt, rt.alloc(), 4, 500, 17_500, 32_768)
}

#[test]
fn few_cells(rt: HostRuntime) -> Result<(), Fail> {
    for power in [1, 2, 4] {
        let ids = places(rt.alloc(), BODIES)?;
        let (table, mut tokens) = SharedTable::create(rt.alloc(), 8192, 1)?;
        let mut pass = next_pass(&table, &mut tokens).ok_or("no token")?;
        assert!(rt; spread(&rt, pass.split(), power, 0, 0, ids.as_slice()));
        assert_eq!(rt; noted(ids.as_slice()), 8192);
        assert_eq!(rt; pass.intern(&node(BODIES)), Err(StoreFull));
    }
    Ok(())
}

/// Interns the bodies with numbers below this.
fn intern_below(pass: &mut SharedPass, count: u64)
    ensures { AreOfOneTable (pass_view pass.old) (pass_view pass.new) }
{
    for k in 0..count {
        let _ = pass.intern(&node(k));
    }
}

/// Two threads intern bodies, and then their passes meet.
fn meet_after_threads<'t, R: Threads + Sync>(
    rt: &R,
    mut first: SharedPass<'t>,
    mut second: SharedPass<'t>,
) -> SharedPass<'t>
    requires { IsOneTable first second }
{
    join_mut(
        rt,
        &mut || intern_below(&mut first, 200),
        &mut || intern_below(&mut second, 300),
    );
    first.meet(second);
    first
}

#[test]
fn passes_come_back(rt: HostRuntime) -> Result<(), Fail> {
    let (table, mut tokens) = SharedTable::create(rt.alloc(), 1024, 2)?;
    let first = next_pass(&table, &mut tokens).ok_or("no token")?;
    let second = next_pass(&table, &mut tokens).ok_or("no second token")?;
    let mut pass = meet_after_threads(&rt, first, second);
    let mut names = SoloStore::create(rt.alloc(), 1024)?;
    for k in 0..300u32 {
        let id = id_of(&rt, &mut pass, &node(u64::from(k))).unwrap_or(0);
        assert_eq!(rt; names.intern(&node(u64::from(id))), Ok(k + 1), "at {k}");
    }
    Ok(())
}

/// Interns two bodies, and answers their ids.
fn intern_both(mut pass: SharedPass, first: u64, second: u64) -> (Option<u32>, Option<u32>) {
    let a = pass.intern(&node(first)).ok();
    let b = pass.intern(&node(second)).ok();
    (a, b)
}

/// Two threads intern two bodies, each in an order of its own. It says whether they got two ids, and the same, also where
/// their passes meet.
fn in_both_orders<'t, R: Threads + Sync>(
    rt: &R,
    mut first: SharedPass<'t>,
    mut second: SharedPass<'t>,
) -> bool
    requires { IsOneTable first second }
{
    let one = first.split();
    let other = second.split();
    let ((a, b), (c, d)) = join(
        rt,
        move || intern_both(one, 2, 1),
        move || intern_both(other, 1, 2),
    );
    let mine = first.intern(&node(2)).ok();
    let theirs = second.intern(&node(1)).ok();
    first.meet(second);
    let again = first.intern(&node(1)).ok();
    a.is_some() && a != b && a == d && b == c && mine == a && theirs == b && again == b
}

#[test]
fn two_threads(rt: HostRuntime) -> Result<(), Fail> {
    for _ in 0..50 {
        let (table, mut tokens) = SharedTable::create(rt.alloc(), 512, 2)?;
        let first = next_pass(&table, &mut tokens).ok_or("no token")?;
        let second = next_pass(&table, &mut tokens).ok_or("no second token")?;
        assert!(rt; in_both_orders(&rt, first, second));
    }
    Ok(())
}
