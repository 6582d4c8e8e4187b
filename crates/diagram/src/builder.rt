ghost use Rattle.std.specs.Prelude.{◌≡◌, ℕ, ◌<◌, ◌≤◌, ◌↔◌, Some, None, length, drop, true, IfErr, IfOk, IsTrue};
ghost use Rattle.tables.specs.Table.{Table, constant_table, plus, times};
ghost use Rattle.tables.specs.Laws.{are_allowed};
ghost use Rattle.tables.specs.Pieces.{add_work};
ghost use Rattle.kind_laws.specs.Plain.{plain, constant_edge, answered};
ghost use Rattle.record_store.specs.StoreView.{find_in};
ghost use Rattle.diagram.specs.Calls.{CanPart, ArePartsOf, CanJoin, IsJoin, IsVariable, IsOfBoth};
ghost use Rattle.diagram.specs.Cofactor.{IsHalf};
ghost use Rattle.diagram.specs.Products.{product_work};
ghost use Rattle.diagram.specs.Totals.{IsContent, IsCount};
ghost use Rattle.diagram.specs.View.{View, letter_at, StandsAt, IsEdge, top_of, Keeps, IsGood};

use crate::cofactor::half;
use crate::limit::Limit;
use crate::manager::Manager;
use crate::multiple_walk::MultipleFrame;
use crate::node_walk::NodeFrame;
use crate::product_walk::{ProductFrame, product_of};
use crate::sum_walk::{SumFrame, sum_of};
use kind_laws::{Edge, Kind};
use record_store::Store;
use result_cache::MAX_LOG;
use std::alloc::Global;
use std::marker::Model;
use word_base::{Decomp, Levels, Overflow, Weight};

/// A store of nodes, the levels that they stand at, and results of operations that are remembered.
#[derive(Drop)]
pub struct Builder<K: Kind, S: Store> {
    pub(crate) manager: Manager<K, S>,
    /// The multiples, the sums and the products that wait for those of parts, one of each at a level.
    pub(crate) multiples: Vec<MultipleFrame<K>>,
    pub(crate) sums: Vec<SumFrame<K>>,
    products: Vec<ProductFrame<K>>,
    /// The nodes whose children are walked, one at a level.
    nodes: Vec<NodeFrame>,
}

impl<K: Kind, S: Store> Model for Builder<K, S> {
    ghost use Rattle.std.specs.Prelude.{◌≤◌, length, vec_capacity};
    ghost use Rattle.diagram.specs.View.{View, view_code};

    ghost Value = { View };

    ghost coded = { view_code };

    ghost view = { λ b. b.manager };

    ghost invariant = { λ b. (length b.manager.letters ≤ vec_capacity b.multiples) × (length b.manager.letters ≤ vec_capacity b.sums) ×
        (length b.manager.letters ≤ vec_capacity b.products) × (length b.manager.letters ≤ vec_capacity b.nodes) };
}

impl<K: Kind, S: Store> Builder<K, S> {
    /// A builder over a store that knows no node, with levels whose letters the kind allows. It takes all its memory here: marks for so
    /// many nodes, room for `2^cache_log` results, and the frames of pending work. Where that is wanting it hands both values back.
    pub fn create(
        alloc: Global,
        store: S,
        levels: Levels,
        cells: u32,
        cache_log: u32,
    ) -> Result<Builder<K, S>, (S, Levels)>
        requires empty { (id : ℕ) → find_in (S.view store) id ≡ None }
        requires allowed { are_allowed K.NAME levels ≡ true }
        requires room { (S.view store).room ≤ cells }
        requires log { cache_log ≤ MAX_LOG }
        ensures made { IfOk result (λ b. b ≡ record { store = S.view store; letters = levels }) }
        ensures handed_back { IfErr result (λ both. both ≡ (store, levels)) }
    {
        let count = levels.len() as usize;
        let Ok(multiples) = Vec::with_capacity(alloc, count) else {
            return Err((store, levels));
        };
        let Ok(sums) = Vec::with_capacity(alloc, count) else {
            return Err((store, levels));
        };
        let Ok(products) = Vec::with_capacity(alloc, count) else {
            return Err((store, levels));
        };
        let Ok(nodes) = Vec::with_capacity(alloc, count) else {
            return Err((store, levels));
        };
        let manager = Manager::create(alloc, store, levels, cells, cache_log)?;
        Ok(Builder {
            manager,
            multiples,
            sums,
            products,
            nodes,
        })
    }

    /// The store.
    pub fn store(&self) -> &S
        ensures { S.view result.now ≡ self.now.store }
    {
        self.manager.store()
    }

    /// The number of levels.
    pub fn levels(&self) -> u16
        ensures count { result ≡ length self.now.letters }
        ensures allowed { are_allowed K.NAME self.now.letters ≡ true }
    {
        self.manager.levels()
    }

    /// The letter of a level.
    pub fn letter(&self, level: u16) -> Decomp
        requires { level < length self.now.letters }
        ensures letter { result ≡ letter_at self.now.letters level }
        ensures good { IsGood K.NAME self.now }
    {
        self.manager.letter(level)
    }

    /// The edge of a constant.
    pub fn constant(&self, value: Weight) -> Edge<K>
        ensures edge { plain K.extra_of result ≡ constant_edge K.NAME value }
        ensures table { (l : ℕ) → l ≤ length self.now.letters →
            StandsAt K.NAME self.now l (constant_table (length (drop l self.now.letters)) value) (plain K.extra_of result) }
    {
        self.manager.constant(value)
    }

    /// The level of an edge's node, and the number of levels for a constant.
    pub fn top(&mut self, edge: Edge<K>) -> u16
        requires { IsEdge K.NAME self.old (plain K.extra_of edge) }
        ensures level { result ≡ top_of self.old edge.node }
        ensures unchanged { self.new ≡ self.old }
    {
        self.manager.top(edge)
    }

    /// The low and the high part of an edge at a level.
    pub fn parts(&mut self, edge: Edge<K>, level: u16) -> Result<(Edge<K>, Edge<K>), Overflow>
        requires { CanPart K.NAME self.old level (plain K.extra_of edge) }
        ensures parts { ArePartsOf K.NAME self.old level (plain K.extra_of edge)
            (answered (λ p. (plain K.extra_of p.0, plain K.extra_of p.1)) result) }
        ensures unchanged { self.new ≡ self.old }
    {
        self.manager.parts(edge, level)
    }

    /// The edge whose parts at a level are the two, which lie below it.
    pub fn join(&mut self, level: u16, low: Edge<K>, high: Edge<K>) -> Result<Edge<K>, Limit>
        requires { CanJoin K.NAME self.old level (plain K.extra_of low) (plain K.extra_of high) }
        ensures keeps { Keeps self.old self.new }
        ensures join { IsJoin K.NAME self.old self.new level (plain K.extra_of low) (plain K.extra_of high)
            (answered (plain K.extra_of) result) }
    {
        self.manager.join(level, low, high)
    }

    /// The edge of a level's variable.
    pub fn var(&mut self, level: u16) -> Result<Edge<K>, Limit>
        requires { level < length self.old.letters }
        ensures keeps { Keeps self.old self.new }
        ensures table { IsVariable K.NAME self.old self.new level (answered (plain K.extra_of) result) }
    {
        self.manager.var(level)
    }

    /// Whether two edges stand for one table. It compares the edges alone.
    pub fn same(&self, a: Edge<K>, b: Edge<K>) -> bool
        ensures { (l : ℕ) (t u : Table) → StandsAt K.NAME self.now l t (plain K.extra_of a) →
            StandsAt K.NAME self.now l u (plain K.extra_of b) → IsTrue result ↔ (t ≡ u) }
    {
        self.manager.same(a, b)
    }

    /// The sum, entry by entry.
    pub fn add(&mut self, a: Edge<K>, b: Edge<K>) -> Result<Edge<K>, Limit>
        requires a_good { IsEdge K.NAME self.old (plain K.extra_of a) }
        requires b_good { IsEdge K.NAME self.old (plain K.extra_of b) }
        ensures keeps { Keeps self.old self.new }
        ensures sum { IsOfBoth plus add_work K.NAME self.old self.new (plain K.extra_of a) (plain K.extra_of b)
            (answered (plain K.extra_of) result) }
    {
        sum_of(&mut self.manager, &mut self.sums, a, b)
    }

    /// The product, entry by entry.
    pub fn mul(&mut self, a: Edge<K>, b: Edge<K>) -> Result<Edge<K>, Limit>
        requires a_good { IsEdge K.NAME self.old (plain K.extra_of a) }
        requires b_good { IsEdge K.NAME self.old (plain K.extra_of b) }
        ensures keeps { Keeps self.old self.new }
        ensures product { IsOfBoth times (product_work self.old.letters) K.NAME self.old self.new
            (plain K.extra_of a) (plain K.extra_of b) (answered (plain K.extra_of) result) }
    {
        product_of(&mut self.manager, &mut self.sums, &mut self.products, a, b)
    }

    /// The half of an edge's table where a level's variable is the bit.
    pub fn cofactor(&mut self, edge: Edge<K>, level: u16, bit: bool) -> Result<Edge<K>, Limit>
        requires { CanPart K.NAME self.old level (plain K.extra_of edge) }
        ensures keeps { Keeps self.old self.new }
        ensures half { IsHalf K.NAME self.old self.new level bit (plain K.extra_of edge)
            (answered (plain K.extra_of) result) }
    {
        half(&mut self.manager, &mut self.sums, edge, level, bit)
    }

    /// The greatest common divisor of the entries of an edge's table, 0 where all are 0.
    pub fn content(&mut self, edge: Edge<K>) -> Weight
        requires { IsEdge K.NAME self.old (plain K.extra_of edge) }
        ensures content { IsContent K.NAME self.old (plain K.extra_of edge) result }
        ensures unchanged { self.new ≡ self.old }
    {
        self.manager.content(&mut self.nodes, edge)
    }

    /// The number of different nodes below an edge, the leaf not counted.
    pub fn count(&mut self, edge: Edge<K>) -> u32
        requires { IsEdge K.NAME self.old (plain K.extra_of edge) }
        ensures count { IsCount K.NAME self.old (plain K.extra_of edge) result }
        ensures unchanged { self.new ≡ self.old }
    {
        self.manager.count(&mut self.nodes, edge)
    }
}
