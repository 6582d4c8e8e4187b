ghost use Rattle.std.specs.Prelude.{◌≡◌, ◌↔◌, ◌<◌, ◌≤◌, false, length, vec_capacity, IfOk, IsTrue};
ghost use Rattle.marks.specs.Inside.{padded};
ghost use Rattle.marks.specs.Marked.{none_of, is_marked, with_mark, marked_count};

use std::alloc::{AllocError, Global};
use std::marker::Model;

/// A set of ids. Each mark is the number of the clearing after which it was made, so that a clearing seldom touches the marks.
#[derive(Drop)]
pub struct Marks {
    /// The stamp under which each id was marked last, 0 for none. The ids past its end have none.
    stamps: Vec<u32>,
    cells: u32,
    stamp: u32,
    count: u32,
}

impl Model for Marks {
    ghost use Rattle.std.specs.Prelude.{Bool, List, vec_capacity};
    ghost use Rattle.marks.specs.Inside.{marked_under, padded, IsStored};

    ghost Value = { List Bool };

    ghost view = { λ m. marked_under m.stamp (padded m.stamps.items m.cells) };

    ghost invariant = { λ m. IsStored m.stamps.items m.cells m.stamp m.count (vec_capacity m.stamps) };
}

impl Marks {
    /// An empty set of the ids from 1 to a number. It takes all its memory here.
    pub fn create(alloc: Global, cells: u32) -> Result<Marks, AllocError>
        ensures { IfOk result (λ m. m ≡ none_of cells) }
    {
        Marks::with_stamp(alloc, cells, 1)
    }

    /// An empty set whose first stamp is this one.
    pub(crate) fn with_stamp(alloc: Global, cells: u32, stamp: u32) -> Result<Marks, AllocError>
        requires { 0 < stamp }
        ensures { IfOk result (λ m. m ≡ none_of cells) }
    {
        let stamps = Vec::with_capacity(alloc, cells as usize)?;
        Ok(Marks {
            stamps,
            cells,
            stamp,
            count: 0,
        })
    }

    /// Empties the set. Each mark is touched only where the last stamp was used.
    pub fn clear(&mut self)
        ensures { self.new ≡ none_of (length self.old) }
    {
        if self.stamp == u32::MAX {
            self.stamps.fill(0);
            self.stamp = 0;
        }
        self.stamp += 1;
        self.count = 0;
    }

    /// Whether an id is in the set.
    pub fn has(&self, id: u32) -> bool
        requires above { 0 < id }
        requires within { id ≤ length self.now }
        ensures { result ≡ is_marked self.now id }
    {
        match self.stamps.get(id as usize - 1) {
            Some(stamp) => *stamp == self.stamp,
            None => false,
        }
    }

    /// Puts an id into the set, where it is not yet. It takes no memory.
    pub fn mark(&mut self, id: u32)
        requires above { 0 < id }
        requires within { id ≤ length self.old }
        requires free { is_marked self.old id ≡ false }
        ensures { self.new ≡ with_mark self.old id }
    {
        extend(&mut self.stamps, id as usize);
        self.stamps[id as usize - 1] = self.stamp;
        self.count += 1;
    }

    /// How many ids are in the set.
    pub fn len(&self) -> u32
        ensures { result ≡ marked_count self.now }
    {
        self.count
    }

    pub fn is_empty(&self) -> bool
        ensures { IsTrue result ↔ (marked_count self.now ≡ 0) }
    {
        self.count == 0
    }
}

/// Writes stamps that mark no id behind the stamps, until there are so many.
fn extend(stamps: &mut Vec<u32>, len: usize)
    requires { len ≤ vec_capacity stamps.old }
    ensures items { stamps.new.items ≡ padded stamps.old.items len }
    ensures capacity { vec_capacity stamps.new ≡ vec_capacity stamps.old }
{
    while stamps.len() < len {
        stamps.push_reserved(0);
    }
}
