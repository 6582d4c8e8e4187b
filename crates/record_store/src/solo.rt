ghost use Rattle.std.specs.Prelude.{◌≡◌, ◌↔◌, ℕ, ◌<◌, ◌≤◌, [], length, IfOk, IsErr, IsTrue, Some, None};
ghost use Rattle.record_store.specs.Interns.{Interns};
ghost use Rattle.record_store.specs.Solo.{solo_view, IsSoloView, Adds, HasRoomFor, IsFullFor};
ghost use Rattle.record_store.specs.StoreView.{find_in, IsKnown, HasBody};

use crate::probe::{PathEnd, probe};
use crate::store::{Store, StoreFull};
use std::alloc::{AllocError, Global};
use std::marker::Model;

/// How many bodies a `SoloStore` may hold at most.
pub const MAX_CELLS: u32 = 1_048_576;

/// The store of one thread: a hash table with open addressing.
#[derive(Drop)]
pub struct SoloStore {
    /// 0, or the id of the body that stands here.
    buckets: Vec<u32>,
    /// In the order of their ids.
    bodies: Vec<[u64; 8]>,
    cells: u32,
}

impl Model for SoloStore {
    ghost use Rattle.std.specs.Prelude.{vec_capacity};
    ghost use Rattle.record_store.specs.Solo.{Solo};
    ghost use Rattle.record_store.specs.SoloInside.{IsSound};

    ghost Value = { Solo };

    ghost view = { λ s. record { bodies = s.bodies.items; cells = s.cells } };

    ghost invariant = { λ s. IsSound s.buckets.items s.bodies.items s.cells (vec_capacity s.bodies) };
}

impl SoloStore {
    /// A store that knows nothing. It takes all its memory here.
    pub fn create(alloc: Global, cells: u32) -> Result<SoloStore, AllocError>
        requires some { 0 < cells }
        requires within { cells ≤ MAX_CELLS }
        ensures empty { IfOk result (λ s. s ≡ record { bodies = []; cells = cells }) }
        ensures nothing { IfOk result (λ s. (id : ℕ) → find_in (solo_view s) id ≡ None) }
    {
        let buckets = vec![in alloc; 0; (2 * cells).next_power_of_two() as usize]?;
        let bodies = Vec::with_capacity(alloc, cells as usize)?;
        Ok(SoloStore {
            buckets,
            bodies,
            cells,
        })
    }

    /// How many bodies are known. The contract tells what holds of the view of every `SoloStore`.
    pub fn len(&self) -> u32
        ensures count { result ≡ length self.now.bodies }
        ensures view { IsSoloView (solo_view self.now) result }
    {
        self.bodies.len() as u32
    }

    pub fn is_empty(&self) -> bool
        ensures { IsTrue result ↔ (self.now.bodies ≡ []) }
    {
        self.bodies.is_empty()
    }
}

impl Store for SoloStore {
    ghost view = { solo_view };

    fn intern(&mut self, body: &[u64; 8]) -> Result<u32, StoreFull>
        ensures interns { Interns (solo_view self.old) (solo_view self.new) body.now result }

        // A new body gets the next id, or is refused where each cell is taken.
        ensures known { HasBody (solo_view self.old) body.now → self.new ≡ self.old }
        ensures added { HasRoomFor self.old body.now → Adds self.old self.new body.now result }
        ensures full { IsFullFor self.old body.now → IsErr result × (self.new ≡ self.old) }
    {
        let bucket = match probe(&self.buckets, &self.bodies, body) {
            PathEnd::Known(id) => return Ok(id),
            PathEnd::Empty(bucket) => bucket,
        };
        if self.bodies.len() == self.cells as usize {
            return Err(StoreFull);
        }
        match self.bodies.push(*body) {
            Ok(()) => {
                let id = self.bodies.len() as u32;
                self.buckets[bucket] = id;
                Ok(id)
            }
            Err(_) => Err(StoreFull),
        }
    }

    fn fields(&mut self, id: u32) -> [u64; 8]
        requires { IsKnown (solo_view self.old) id }
        ensures body { find_in (solo_view self.old) id ≡ Some result }
        ensures unchanged { self.new ≡ self.old }
    {
        self.bodies[id as usize - 1]
    }
}
