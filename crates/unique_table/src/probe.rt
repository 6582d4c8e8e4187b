//! The path of a body through the buckets, to its id or to an empty bucket.
ghost use Rattle.std.specs.Prelude.{◌≡◌, ◌+◌, ◌<◌, true, false, IsTrue};
ghost use Rattle.table_rule.specs.Counts.{IsIn};
ghost use Rattle.table_rule.specs.Laws.{IsViewOf};
ghost use Rattle.table_rule.specs.PassStore.{is_spent};
ghost use Rattle.table_rule.specs.Steps.{IsCovered};
ghost use Rattle.unique_table.specs.Exploring.{HasExplored};
ghost use Rattle.unique_table.specs.Probing.{IsDrafted, HasAdded, HasLost, Settles, Claims, Compares, Visits, Ends};
ghost use Rattle.unique_table.specs.PassInside.{IsSeated};
ghost use Rattle.unique_table.specs.Stocked.{IsStock};
ghost use Rattle.unique_table.specs.declared.stock.Stock.{Stock};
ghost use Rattle.unique_table.specs.Walking.{IsAt};

use crate::body::{has_body, write_draft};
use crate::step::Place;
use crate::stock::{Stock, restock};
use crate::table::SharedTable;
use crate::walk::{look, publish_at};
use record_store::{StoreFull, start};

/// What stands in a bucket, where the body was put in if it was empty.
#[derive(Clone, Copy, Drop)]
pub(crate) enum Claim {
    /// The body, which was published under this id.
    Made(u32),
    /// Some body that another call published, under this id.
    Taken(u32),
    /// Nothing, since there is no cell for the body.
    Spent,
}

/// What came of a bucket.
#[derive(Clone, Copy, Drop)]
pub(crate) enum Visit {
    /// The body stands there, under this id.
    Found(u32),
    /// Another body stands there.
    Other,
    /// It is empty, and there is no cell for the body.
    Full,
}

/// Writes the body into a cell, where that was not done before. It says whether there was a cell.
fn prepare(
    table: &SharedTable,
    place: &mut Place,
    stock: &mut Stock,
    body: &[u64; 8],
    drafted: &mut bool,
) -> bool
    requires pass { IsSeated table.now place.old stock.old }
    requires drafted { drafted.old ≡ true → IsDrafted place.old.me.0 body.now stock.old }
    ensures pass { IsSeated table.now place.new stock.new }
    ensures explored { HasExplored place.old.me.0 place.new.me.0 }
    ensures yes { IsTrue result → IsDrafted place.new.me.0 body.now stock.new }
    ensures no { result ≡ false → is_spent table.now.layout place.new.me.0 ≡ true }
{
    if *drafted {
        return true;
    }
    if !restock(table, place, stock) {
        return false;
    }
    write_draft(table, place, stock.next, body);
    *drafted = true;
    true
}

/// Tries to publish the draft in a bucket. It answers 0, or the id that was found there.
fn publish_draft(
    table: &SharedTable,
    place: &mut Place,
    stock: &mut Stock,
    bucket: u64,
    body: &[u64; 8],
) -> u32
    requires pass { IsSeated table.now place.old stock.old }
    requires drafted { IsDrafted place.old.me.0 body.now stock.old }
    requires within { bucket < table.now.layout.buckets }
    requires covered { IsCovered table.now.layout place.old.me.0 body.now bucket }
    ensures pass { IsSeated table.now place.new stock.new }
    ensures made { result ≡ 0 → HasAdded place.old.me.0 stock.new.next body.now place.new.me.0 }
    ensures lost { 0 < result → HasLost place.old.me.0 bucket result place.new.me.0 × IsDrafted place.new.me.0 body.now stock.new }
{
    let _layout = &table.layout;
    let found = publish_at(table, place, stock.next, bucket) as u32;
    if found == 0 {
        stock.next += 1;
    }
    found
}

/// Puts a body that is not known into an empty bucket.
fn settle(
    table: &SharedTable,
    place: &mut Place,
    stock: &mut Stock,
    bucket: u64,
    body: &[u64; 8],
    drafted: &mut bool,
) -> Claim
    requires pass { IsSeated table.now place.old stock.old }
    requires drafted { drafted.old ≡ true → IsDrafted place.old.me.0 body.now stock.old }
    requires within { bucket < table.now.layout.buckets }
    requires covered { IsCovered table.now.layout place.old.me.0 body.now bucket }
    ensures pass { IsSeated table.now place.new stock.new }
    ensures came { Settles table.now.layout place.old.me.0 body.now bucket result stock.new place.new.me.0 }
{
    if !prepare(table, place, stock, body, drafted) {
        return Claim::Spent;
    }
    let found = publish_draft(table, place, stock, bucket, body);
    if found == 0 {
        Claim::Made(stock.next)
    } else {
        Claim::Taken(found)
    }
}

/// Looks at a bucket, and puts the body in where it is empty.
fn claim_bucket(
    table: &SharedTable,
    place: &mut Place,
    stock: &mut Stock,
    bucket: u64,
    body: &[u64; 8],
    drafted: &mut bool,
) -> Claim
    requires pass { IsSeated table.now place.old stock.old }
    requires drafted { drafted.old ≡ true → IsDrafted place.old.me.0 body.now stock.old }
    requires within { bucket < table.now.layout.buckets }
    requires covered { IsCovered table.now.layout place.old.me.0 body.now bucket }
    ensures pass { IsSeated table.now place.new stock.new }
    ensures came { Claims table.now.layout place.old.me.0 body.now bucket result drafted.new stock.new place.new.me.0 }
{
    let _layout = &table.layout;
    let found = look(table, place, bucket) as u32;
    if found != 0 {
        return Claim::Taken(found);
    }
    settle(table, place, stock, bucket, body, drafted)
}

/// Compares the body with that under an id that was seen in a bucket.
fn compare(table: &SharedTable, place: &mut Place, bucket: u64, id: u32, body: &[u64; 8]) -> Visit
    requires own { IsAt table.now place.old }
    requires live { place.old.me.0.ended ≡ false }
    requires possible { IsViewOf table.now.layout place.old.me.0 }
    requires seen { IsIn place.old.me.0.seen (bucket, id) }
    ensures own { IsAt table.now place.new }
    ensures possible { IsViewOf table.now.layout place.new.me.0 }
    ensures came { Compares place.old.me.0 body.now bucket result place.new.me.0 }
    ensures stock { (s : Stock) → IsStock table.now.layout place.old.me.0 s → IsStock table.now.layout place.new.me.0 s }
{
    if has_body(table, place, id, body) {
        Visit::Found(id)
    } else {
        Visit::Other
    }
}

/// Goes to one bucket on the path of the body.
fn visit_bucket(
    table: &SharedTable,
    place: &mut Place,
    stock: &mut Stock,
    bucket: u64,
    body: &[u64; 8],
    drafted: &mut bool,
) -> Visit
    requires pass { IsSeated table.now place.old stock.old }
    requires drafted { drafted.old ≡ true → IsDrafted place.old.me.0 body.now stock.old }
    requires within { bucket < table.now.layout.buckets }
    requires covered { IsCovered table.now.layout place.old.me.0 body.now bucket }
    ensures pass { IsSeated table.now place.new stock.new }
    ensures came { Visits table.now.layout place.old.me.0 body.now bucket result drafted.new stock.new place.new.me.0 }
{
    match claim_bucket(table, place, stock, bucket, body, drafted) {
        Claim::Made(id) => Visit::Found(id),
        Claim::Taken(id) => compare(table, place, bucket, id, body),
        Claim::Spent => Visit::Full,
    }
}

/// A power of two, and more buckets than a table has. So the start of a body among them tells that in any table, by a mask.
const MOST_BUCKETS: u64 = 4_294_967_296;

/// Follows the path of a body to its id, or to an empty bucket, where it is put in.
pub(crate) fn find_or_add(
    table: &SharedTable,
    place: &mut Place,
    stock: &mut Stock,
    body: &[u64; 8],
) -> Result<u32, StoreFull>
    requires pass { IsSeated table.now place.old stock.old }
    ensures pass { IsSeated table.now place.new stock.new }
    ensures came { Ends table.now.layout place.old.me.0 body.now result place.new.me.0 }
{
    let buckets = table.layout.buckets;
    let mask = buckets - 1;
    let mut bucket = start(body, MOST_BUCKETS) & mask;
    let mut drafted = false;
    for distance in 0..buckets {
        match visit_bucket(table, place, stock, bucket, body, &mut drafted) {
            Visit::Found(id) => return Ok(id),
            Visit::Full => return Err(StoreFull),
            Visit::Other => bucket = (bucket + 1) & mask,
        }
    }
    unreachable!()
}
