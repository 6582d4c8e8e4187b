ghost use Rattle.std.specs.Prelude.{◌≡◌, ◌≢◌, ℕ, ◌<◌, ◌≤◌, ◌↔◌, Some, None, length, drop, true, IfErr, IfOk, IfSome, IsTrue};
ghost use Rattle.tables.specs.Table.{Table, constant_table};
ghost use Rattle.tables.specs.Laws.{are_allowed};
ghost use Rattle.kind_laws.specs.Kind.{IsNodeBody};
ghost use Rattle.kind_laws.specs.Plain.{plain, constant_edge, answered};
ghost use Rattle.record_store.specs.Interns.{Interns};
ghost use Rattle.record_store.specs.StoreView.{find_in};
ghost use Rattle.diagram.specs.Calls.{CanPart, ArePartsOf, CanJoin, IsJoin, IsVariable, variable_low, variable_high, KeepsGood};
ghost use Rattle.diagram.specs.Remembered.{IsFound, IsKept};
ghost use Rattle.diagram.specs.View.{View, letter_at, StandsAt, IsEdge, top_of, Keeps, IsGood};

use crate::limit::Limit;
use crate::split::parts_by;
use kind_laws::{Edge, Joined, Kind, level_of};
use marks::Marks;
use record_store::{Store, StoreFull};
use result_cache::{HashedKey, MAX_LOG, ResultCache};
use std::alloc::Global;
use std::marker::{Model, PhantomData};
use word_base::{Decomp, Levels, Overflow, Weight};

/// A store of nodes, the levels that they stand at, the results of operations that are remembered, and marks.
#[derive(Drop)]
pub(crate) struct Manager<K: Kind, S: Store> {
    pub(crate) store: S,
    levels: Levels,
    cache: ResultCache,
    /// The nodes that a walk has met.
    pub(crate) marks: Marks,
    kind: PhantomData<K>,
}

impl<K: Kind, S: Store> Model for Manager<K, S> {
    ghost use Rattle.diagram.specs.Inside.{IsSound};
    ghost use Rattle.diagram.specs.View.{View, view_code};

    ghost Value = { View };

    ghost coded = { view_code };

    ghost view = { λ b. record { store = S.view b.store; letters = b.levels } };

    ghost invariant = { λ b. IsSound K.NAME (record { store = S.view b.store; letters = b.levels }) b.cache b.marks };
}

impl<K: Kind, S: Store> Manager<K, S> {
    /// A manager over a store that knows no node.
    pub(crate) fn create(
        alloc: Global,
        store: S,
        levels: Levels,
        cells: u32,
        cache_log: u32,
    ) -> Result<Manager<K, S>, (S, Levels)>
        requires empty { (id : ℕ) → find_in (S.view store) id ≡ None }
        requires allowed { are_allowed K.NAME levels ≡ true }
        requires room { (S.view store).room ≤ cells }
        requires log { cache_log ≤ MAX_LOG }
        ensures made { IfOk result (λ b. b ≡ record { store = S.view store; letters = levels }) }
        ensures handed_back { IfErr result (λ both. both ≡ (store, levels)) }
    {
        let Ok(marks) = Marks::create(alloc, cells) else {
            return Err((store, levels));
        };
        match ResultCache::create(alloc, cache_log) {
            Ok(cache) => Ok(Manager {
                store,
                levels,
                cache,
                marks,
                kind: PhantomData,
            }),
            Err(_) => Err((store, levels)),
        }
    }

    /// The store.
    pub(crate) fn store(&self) -> &S
        ensures { S.view result.now ≡ self.now.store }
    {
        &self.store
    }

    /// The number of levels.
    pub(crate) fn levels(&self) -> u16
        ensures count { result ≡ length self.now.letters }
        ensures allowed { are_allowed K.NAME self.now.letters ≡ true }
    {
        self.levels.len()
    }

    /// The letter of a level.
    pub(crate) fn letter(&self, level: u16) -> Decomp
        requires { level < length self.now.letters }
        ensures letter { result ≡ letter_at self.now.letters level }
        ensures good { IsGood K.NAME self.now }
    {
        let _store = &self.store;
        self.levels.at(level)
    }

    /// The edge of a constant.
    pub(crate) fn constant(&self, value: Weight) -> Edge<K>
        ensures edge { plain K.extra_of result ≡ constant_edge K.NAME value }
        ensures table { (l : ℕ) → l ≤ length self.now.letters →
            StandsAt K.NAME self.now l (constant_table (length (drop l self.now.letters)) value) (plain K.extra_of result) }
    {
        let _store = &self.store;
        K::constant(value)
    }

    /// The body of the node that an edge leads to.
    pub(crate) fn body_of(&mut self, edge: Edge<K>) -> [u64; 8]
        requires good { IsEdge K.NAME self.old (plain K.extra_of edge) }
        requires no_leaf { edge.node ≢ 0 }
        ensures known { find_in self.old.store edge.node ≡ Some result }
        ensures body { IsNodeBody K.NAME result }
        ensures unchanged { self.new ≡ self.old }
    {
        self.store.fields(edge.node)
    }

    /// The level of an edge's node, and the number of levels for a constant.
    pub(crate) fn top(&mut self, edge: Edge<K>) -> u16
        requires { IsEdge K.NAME self.old (plain K.extra_of edge) }
        ensures level { result ≡ top_of self.old edge.node }
        ensures unchanged { self.new ≡ self.old }
    {
        if edge.node == 0 {
            return self.levels();
        }
        level_of(&self.body_of(edge))
    }

    /// The low and the high part of an edge at a level.
    pub(crate) fn parts(
        &mut self,
        edge: Edge<K>,
        level: u16,
    ) -> Result<(Edge<K>, Edge<K>), Overflow>
        requires { CanPart K.NAME self.old level (plain K.extra_of edge) }
        ensures parts { ArePartsOf K.NAME self.old level (plain K.extra_of edge)
            (answered (λ p. (plain K.extra_of p.0, plain K.extra_of p.1)) result) }
        ensures unchanged { self.new ≡ self.old }
    {
        let letter = self.letter(level);
        let node = self.node_of(edge);
        parts_by(edge, &node, level, letter)
    }

    /// The id of a body of which the store stays good.
    fn intern(&mut self, body: &[u64; 8]) -> Result<u32, StoreFull>
        requires { KeepsGood K.NAME self.old body.now }
        ensures interns { Interns self.old.store self.new.store body.now result }
        ensures letters { self.new.letters ≡ self.old.letters }
    {
        self.store.intern(body)
    }

    /// What is remembered under a key.
    pub(crate) fn look_up(&self, key: &HashedKey) -> Option<Edge<K>>
        ensures { IfSome result (λ r. IsFound K.NAME self.now key.now (plain K.extra_of r)) }
    {
        let _store = &self.store;
        match self.cache.look(key) {
            Some(words) => Some(K::unpack(words)),
            None => None,
        }
    }

    /// Remembers the result of the operation whose key it is.
    pub(crate) fn remember(&mut self, key: &HashedKey, answer: Edge<K>)
        requires { IsKept K.NAME self.old key.now (plain K.extra_of answer) }
        ensures { self.new ≡ self.old }
    {
        self.cache.keep(key, K::pack(answer));
    }

    /// The edge whose parts at a level are the two, which lie below it.
    pub(crate) fn join(&mut self, level: u16, low: Edge<K>, high: Edge<K>) -> Result<Edge<K>, Limit>
        requires { CanJoin K.NAME self.old level (plain K.extra_of low) (plain K.extra_of high) }
        ensures keeps { Keeps self.old self.new }
        ensures join { IsJoin K.NAME self.old self.new level (plain K.extra_of low) (plain K.extra_of high)
            (answered (plain K.extra_of) result) }
    {
        let letter = self.letter(level);
        match K::join(level, letter, low, high)? {
            Joined::Skip(edge) => Ok(edge),
            Joined::Node {
                weight,
                extra,
                body,
            } => {
                let node = self.intern(&body)?;
                Ok(Edge {
                    weight,
                    extra,
                    node,
                    kind: PhantomData,
                })
            }
        }
    }

    /// The edge of a level's variable.
    pub(crate) fn var(&mut self, level: u16) -> Result<Edge<K>, Limit>
        requires { level < length self.old.letters }
        ensures keeps { Keeps self.old self.new }
        ensures table { IsVariable K.NAME self.old self.new level (answered (plain K.extra_of) result) }
    {
        let (low, high) = variable_parts(self.letter(level));
        let low = self.constant(low);
        let high = self.constant(high);
        self.join(level, low, high)
    }

    /// Whether two edges stand for one table. It compares the edges alone.
    pub(crate) fn same(&self, a: Edge<K>, b: Edge<K>) -> bool
        ensures { (l : ℕ) (t u : Table) → StandsAt K.NAME self.now l t (plain K.extra_of a) →
            StandsAt K.NAME self.now l u (plain K.extra_of b) → IsTrue result ↔ (t ≡ u) }
    {
        let _store = &self.store;
        a == b
    }
}

/// The parts of a variable at its level.
fn variable_parts(letter: Decomp) -> (Weight, Weight)
    ensures low { result.0 ≡ variable_low letter }
    ensures high { result.1 ≡ variable_high letter }
{
    match letter {
        Decomp::S | Decomp::P => (Weight::ZERO, Weight::ONE),
        Decomp::N => (Weight::ONE, Weight::ONE.neg()),
    }
}
