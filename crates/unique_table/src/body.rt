//! A body in a cell: read and compared, or written as a draft.
ghost use Rattle.std.specs.Prelude.{◌≡◌, ℕ, ◌<◌, false, length, IsTrue};
ghost use Rattle.table_rule.specs.Counts.{IsIn};
ghost use Rattle.table_rule.specs.Laws.{IsViewOf};
ghost use Rattle.table_rule.specs.Steps.{draft_cell};
ghost use Rattle.unique_table.specs.Exploring.{HasLearned, HasFoundOther, drafted};
ghost use Rattle.unique_table.specs.Walking.{IsAt};

use crate::step::Place;
use crate::table::SharedTable;
use crate::walk::{cell_start, first_word, read_last, read_word, write_word};

/// Whether the body under an id that was seen in a bucket is this one. Then the id is known.
pub(crate) fn has_body(table: &SharedTable, place: &mut Place, id: u32, body: &[u64; 8]) -> bool
    requires own { IsAt table.now place.old }
    requires live { place.old.me.0.ended ≡ false }
    requires possible { IsViewOf table.now.layout place.old.me.0 }
    requires seen { (b : ℕ) × IsIn place.old.me.0.seen (b, id) }
    ensures own { IsAt table.now place.new }
    ensures possible { IsViewOf table.now.layout place.new.me.0 }
    ensures yes { IsTrue result → HasLearned place.old.me.0 id body.now place.new.me.0 }
    ensures no { result ≡ false → HasFoundOther place.old.me.0 id body.now place.new.me.0 }
{
    let first = first_word(table, place, id);
    for i in 0..7 {
        if read_word(table, place, id, first, i) != body[i] {
            return false;
        }
    }
    let last = read_last(table, place, id, first, body[7]);
    last == body[7]
}

/// Writes a body into the cell of the draft.
pub(crate) fn write_draft(table: &SharedTable, place: &mut Place, cell: u32, body: &[u64; 8])
    requires own { IsAt table.now place.old }
    requires live { place.old.me.0.ended ≡ false }
    requires possible { IsViewOf table.now.layout place.old.me.0 }
    requires cell { draft_cell place.old.me.0 ≡ cell }
    requires held { 0 < length place.old.me.0.held }
    requires small { cell < table.now.layout.cells }
    ensures own { IsAt table.now place.new }
    ensures possible { IsViewOf table.now.layout place.new.me.0 }
    ensures view { place.new.me.0 ≡ drafted body.now place.old.me.0 }
{
    let first = cell_start(table, cell);
    for i in 0..8 {
        write_word(table, place, cell, first, i, body[i]);
    }
}
