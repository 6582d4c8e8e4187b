//! The steps of a pass on the buckets, the cells and the chunks of its table.
ghost use Rattle.std.specs.Prelude.{◌≡◌, ◌≢◌, ℕ, List, ◌+◌, ◌-◌, ◌<◌, ◌≤◌, false, [], length, slice_index};
ghost use Rattle.table_rule.specs.Counts.{IsIn};
ghost use Rattle.table_rule.specs.Laws.{IsViewOf};
ghost use Rattle.table_rule.specs.Steps.{IsCovered, IsMet, draft_cell};
ghost use Rattle.table_rule.specs.Views.{see, read, write, publish, see_chunk, take_chunk};
ghost use Rattle.table_rule.specs.Words.{chunks, word_at};
ghost use Rattle.unique_table.specs.Taking.{CanTake, HasTaken};
ghost use Rattle.unique_table.specs.Walking.{IsAt, IsNewBehind, KnowsAfter};

use crate::step::{Place, Taking, exchange, load, store};
use crate::table::SharedTable;
use std::marker::Brand;

/// Where the words of a cell begin.
pub(crate) fn cell_start(table: &SharedTable, cell: u32) -> usize
    requires small { cell < table.now.layout.cells }
    ensures { result ≡ word_at table.now.layout cell 0 }
{
    1 + table.layout.buckets as usize + 8 * cell as usize
}

/// Where the body under an id that was met begins.
pub(crate) fn first_word(table: &SharedTable, place: &Place, id: u32) -> usize
    requires live { place.now.me.0.ended ≡ false }
    requires possible { IsViewOf table.now.layout place.now.me.0 }
    requires met { IsMet place.now.me.0 id }
    ensures { result ≡ word_at table.now.layout (id - 1) 0 }
{
    cell_start(table, id - 1)
}

/// Reads a bucket.
pub(crate) fn look(table: &SharedTable, place: &mut Place, bucket: u64) -> u64
    requires own { IsAt table.now place.old }
    requires live { place.old.me.0.ended ≡ false }
    requires within { bucket < table.now.layout.buckets }
    ensures own { IsAt table.now place.new }
    ensures view { place.new.me.0 ≡ see bucket result place.old.me.0 }
    ensures possible { IsViewOf table.now.layout place.new.me.0 }
    ensures within { result ≤ table.now.layout.cells }
    ensures empty { result ≡ 0 → IsNewBehind table.now.layout place.old.me.0 bucket }
{
    let words = &table.table.shared;
    load::<Brand>(words, place, 1 + bucket as usize)
}

/// Tries to put the id of the draft into a bucket.
pub(crate) fn publish_at(table: &SharedTable, place: &mut Place, cell: u32, bucket: u64) -> u64
    requires own { IsAt table.now place.old }
    requires live { place.old.me.0.ended ≡ false }
    requires within { bucket < table.now.layout.buckets }
    requires cell { draft_cell place.old.me.0 ≡ cell }
    requires small { cell < table.now.layout.cells }
    requires drafted { length place.old.me.0.draft ≡ 8 }
    requires covered { IsCovered table.now.layout place.old.me.0 place.old.me.0.draft bucket }
    ensures own { IsAt table.now place.new }
    ensures made { result ≡ 0 → place.new.me.0 ≡ publish bucket (cell + 1) place.old.me.0 }
    ensures lost { 0 < result → place.new.me.0 ≡ see bucket result place.old.me.0 }
    ensures possible { IsViewOf table.now.layout place.new.me.0 }
    ensures within { result ≤ table.now.layout.cells }
{
    let words = &table.table.shared;
    exchange::<Brand>(words, place, 1 + bucket as usize, u64::from(cell + 1))
}

/// Writes a word of the draft.
pub(crate) fn write_word(
    table: &SharedTable,
    place: &mut Place,
    cell: u32,
    first: usize,
    i: usize,
    word: u64,
)
    requires own { IsAt table.now place.old }
    requires live { place.old.me.0.ended ≡ false }
    requires cell { draft_cell place.old.me.0 ≡ cell }
    requires held { 0 < length place.old.me.0.held }
    requires small { cell < table.now.layout.cells }
    requires first { first ≡ word_at table.now.layout cell 0 }
    requires few { i < 8 }
    requires next { i ≤ length place.old.me.0.draft }
    ensures own { IsAt table.now place.new }
    ensures view { place.new.me.0 ≡ write i word place.old.me.0 }
    ensures possible { IsViewOf table.now.layout place.new.me.0 }
{
    let words = &table.table.shared;
    store::<Brand>(words, place, first + i, word);
}

/// Tries to take a chunk of cells.
pub(crate) fn try_chunk(table: &SharedTable, place: &mut Place, chunk: u32) -> u64
    requires own { IsAt table.now place.old }
    requires live { place.old.me.0.ended ≡ false }
    requires within { chunk < chunks table.now.layout }
    requires none { place.old.me.0.held ≡ [] }
    ensures own { IsAt table.now place.new }
    ensures took { result ≡ 0 → place.new.me.0 ≡ take_chunk table.now.layout chunk place.old.me.0 }
    ensures lost { 0 < result → place.new.me.0 ≡ see_chunk chunk result place.old.me.0 }
    ensures possible { IsViewOf table.now.layout place.new.me.0 }
{
    let words = &table.table.shared;
    let first = 1 + table.layout.buckets as usize + 8 * table.layout.cells as usize;
    exchange::<Brand>(words, place, first + chunk as usize, 1)
}

/// Reads the word of a chunk.
pub(crate) fn look_chunk(table: &SharedTable, place: &mut Place, chunk: u32) -> u64
    requires own { IsAt table.now place.old }
    requires live { place.old.me.0.ended ≡ false }
    requires within { chunk < chunks table.now.layout }
    ensures own { IsAt table.now place.new }
    ensures view { place.new.me.0 ≡ see_chunk chunk result place.old.me.0 }
    ensures possible { IsViewOf table.now.layout place.new.me.0 }
{
    let words = &table.table.shared;
    let first = 1 + table.layout.buckets as usize + 8 * table.layout.cells as usize;
    load::<Brand>(words, place, first + chunk as usize)
}

/// Reads a word of the body under an id, by a step that the caller picks. The word that is wanted is for the pick alone.
fn read_at<E: Taking>(
    table: &SharedTable,
    place: &mut Place,
    id: u32,
    first: usize,
    i: usize,
    _wanted: u64,
) -> u64
    requires own { IsAt table.now place.old }
    requires some { 0 < id }
    requires small { id ≤ table.now.layout.cells }
    requires first { first ≡ word_at table.now.layout (id - 1) 0 }
    requires few { i < 8 }
    requires key { E.layout ≡ table.now.layout }
    requires allowed { CanTake E.layout E.event place.old.me.0 (word_at E.layout (id - 1) i) (λ n. n) }
    ensures own { IsAt table.now place.new }
    ensures taken { HasTaken E.layout E.event place.old.me.0 (word_at E.layout (id - 1) i) result place.new.me.0 }
{
    let words = &table.table.shared;
    load::<E>(words, place, first + i)
}

/// Reads a word of the body under an id that was met.
pub(crate) fn read_word(
    table: &SharedTable,
    place: &mut Place,
    id: u32,
    first: usize,
    i: usize,
) -> u64
    requires own { IsAt table.now place.old }
    requires live { place.old.me.0.ended ≡ false }
    requires possible { IsViewOf table.now.layout place.old.me.0 }
    requires met { IsMet place.old.me.0 id }
    requires first { first ≡ word_at table.now.layout (id - 1) 0 }
    requires few { i < 8 }
    ensures own { IsAt table.now place.new }
    ensures view { place.new.me.0 ≡ read id i result place.old.me.0 }
    ensures possible { IsViewOf table.now.layout place.new.me.0 }
    ensures known { (node : List ℕ) → IsIn place.old.me.0.known (id, node) → result ≡ slice_index node i }
{
    read_at::<Brand>(table, place, id, first, i, 0)
}

/// Reads the last word of a body whose other words were read. Where it is the one that is wanted, the id is known.
pub(crate) fn read_last(
    table: &SharedTable,
    place: &mut Place,
    id: u32,
    first: usize,
    wanted: u64,
) -> u64
    requires own { IsAt table.now place.old }
    requires live { place.old.me.0.ended ≡ false }
    requires possible { IsViewOf table.now.layout place.old.me.0 }
    requires met { IsMet place.old.me.0 id }
    requires first { first ≡ word_at table.now.layout (id - 1) 0 }
    requires read { (j : ℕ) → j < 7 → (word : ℕ) × IsIn place.old.me.0.words (id, j, word) }
    ensures own { IsAt table.now place.new }
    ensures other { result ≢ wanted → place.new.me.0 ≡ read id 7 result place.old.me.0 }
    ensures last { result ≡ wanted → KnowsAfter place.old.me.0 id wanted place.new.me.0 }
    ensures possible { IsViewOf table.now.layout place.new.me.0 }
{
    read_at::<Brand>(table, place, id, first, 7, wanted)
}
