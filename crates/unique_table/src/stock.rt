//! The cells that a pass owns and has not published.
ghost use Rattle.std.specs.Prelude.{◌≡◌, ◌<◌, false, true, IsTrue};
ghost use Rattle.table_rule.specs.PassStore.{is_spent};
ghost use Rattle.unique_table.specs.Exploring.{HasExplored};
ghost use Rattle.unique_table.specs.PassInside.{IsSeated};

use crate::step::Place;
use crate::table::{CHUNK, SharedTable};
use crate::walk::try_chunk;

/// The cells from `next` up to `end`, and how far the pass has looked for chunks that are free.
#[derive(Clone, Copy, Drop)]
pub(crate) struct Stock {
    pub(crate) next: u32,
    pub(crate) end: u32,
    /// The chunks below this were seen taken.
    pub(crate) chunk: u32,
}

/// Takes a chunk where no cell is left, and says whether there is a cell.
pub(crate) fn restock(table: &SharedTable, place: &mut Place, stock: &mut Stock) -> bool
    requires pass { IsSeated table.now place.old stock.old }
    ensures pass { IsSeated table.now place.new stock.new }
    ensures explored { HasExplored place.old.me.0 place.new.me.0 }
    ensures yes { IsTrue result → stock.new.next < stock.new.end }
    ensures no { result ≡ false → is_spent table.now.layout place.new.me.0 ≡ true }
{
    if stock.next < stock.end {
        return true;
    }
    let chunks = (table.layout.cells / u64::from(CHUNK)) as u32;
    while stock.chunk < chunks {
        let chunk = stock.chunk;
        stock.chunk = chunk + 1;
        if try_chunk(table, place, chunk) == 0 {
            stock.next = CHUNK * chunk;
            stock.end = stock.next + CHUNK;
            return true;
        }
    }
    false
}
