ghost use Rattle.std.specs.Prelude.{◌≡◌, ℕ, ◌+◌, ◌<◌, ◌≤◌, ◌%◌, IfOk, [], ◌∷◌, length, slice_get, Some, None};
ghost use Rattle.std.specs.List.{All, range_with_len};
ghost use Rattle.record_store.specs.StoreView.{find_in};
ghost use Rattle.table_rule.specs.Views.{fresh};
ghost use Rattle.table_rule.specs.Words.{word_count};
ghost use Rattle.table_rule.specs.declared.layout.Layout.{Layout};
ghost use Rattle.unique_table.specs.Passes.{pass_view};
ghost use Rattle.unique_table.specs.Values.{IsLayoutFor, IsMade, IsOf, IsShape, begun};

use crate::pass::SharedPass;
use crate::step::{Place, Rules};
use crate::stock::Stock;
use crate::token::PassToken;
use atomic_table::Table;
use std::alloc::{AllocError, Global};
use std::collections::LinkedList;
use std::marker::Model;
use table_rule::{Layout, PassView};

/// How many cells a table may have at most.
pub const MAX_CELLS: u32 = 1_048_576;

/// How many cells a pass takes at a time.
pub const CHUNK: u32 = 256;

/// What contracts see of a table: how large it is, and the numbers that name it. No value of it is made.
pub struct TableValue {
    pub names: LinkedList<u64>,
    pub layout: Layout,
}

/// The table that passes share.
#[derive(Drop)]
pub struct SharedTable {
    pub(crate) table: Table<(), PassView, Layout, Rules, Global>,
    pub(crate) layout: Layout,
}

impl Model for SharedTable {
    ghost use Rattle.std.specs.Prelude.{◌≡◌};
    ghost use Rattle.table_rule.specs.Words.{word_count};
    ghost use Rattle.unique_table.specs.Values.{names_of, IsShape};
    ghost use Rattle.unique_table.specs.declared.table.TableValue.{TableValue};

    ghost Value = { TableValue };

    ghost view = { λ t. record { names = names_of t.table.shared.table_id; layout = t.layout } };

    ghost invariant = { λ t. IsShape t.layout × (t.table.shared.key ≡ t.layout) × (t.table.shared.table_id.words ≡ word_count t.layout) };
}

/// The layout of a table of so many cells.
fn layout_for(cells: u32, passes: u32) -> Layout
    requires some { 0 < cells }
    requires few { cells ≤ MAX_CELLS }
    ensures { IsLayoutFor cells passes result }
{
    Layout {
        buckets: u64::from((2 * cells).next_power_of_two()),
        cells: u64::from(cells),
        chunk: u64::from(CHUNK),
        tokens: u64::from(passes),
    }
}

/// How many words a table has.
fn words_of(layout: &Layout) -> usize
    requires { IsShape layout.now }
    ensures { result ≡ word_count layout.now }
{
    (1 + layout.buckets + 8 * layout.cells + layout.cells / layout.chunk) as usize
}

/// A table whose words are all 0, and its first pass, which has all tokens.
fn blank(alloc: Global, layout: Layout) -> Result<(SharedTable, PassToken), AllocError>
    requires { IsShape layout }
    ensures layout { IfOk result (λ r. r.0.layout ≡ layout) }
    ensures token { IfOk result (λ r. r.1 ≡ begun r.0 (range_with_len 0 layout.tokens)) }
{
    let words = vec![in alloc; 0; words_of(&layout)]?;
    let (table, place) = Table::of_words(alloc, words.as_slice(), &layout)?;
    Ok((SharedTable { table, layout }, PassToken { layout, place }))
}

/// A token for each pass.
fn deal(
    alloc: Global,
    table: &SharedTable,
    mut last: PassToken,
    passes: u32,
) -> Result<Vec<PassToken>, AllocError>
    requires some { 0 < passes }
    requires all { last ≡ begun table.now (range_with_len 0 passes) }
    ensures count { IfOk result (λ v. length v.items ≡ passes) }
    ensures own { IfOk result (λ v. All (IsOf table.now) v.items) }
    ensures each { IfOk result (λ v. (k : ℕ) → k < passes → slice_get v.items k ≡ Some (begun table.now (k ∷ []))) }
{
    let mut tokens = Vec::new(alloc);
    for _ in 1..passes {
        tokens.push(last.deal(table))?;
    }
    tokens.push(last)?;
    Ok(tokens)
}

impl SharedTable {
    /// A table of nodes that knows nothing, and a token for each of its passes. It takes all its memory here.
    pub fn create(
        alloc: Global,
        cells: u32,
        passes: u32,
    ) -> Result<(SharedTable, Vec<PassToken>), AllocError>
        requires some { CHUNK ≤ cells }
        requires chunks { cells % CHUNK ≡ 0 }
        requires few { cells ≤ MAX_CELLS }
        requires some_passes { 0 < passes }
        requires few_passes { passes ≤ 16 }
        ensures made { IfOk result (λ r. IsMade cells passes r.0 r.1.items) }
        ensures tokens { IfOk result (λ r. All (IsOf r.0) r.1.items) }
    {
        let layout = layout_for(cells, passes);
        let (table, first) = blank(alloc, layout)?;
        let tokens = deal(alloc, &table, first, passes)?;
        Ok((table, tokens))
    }

    /// The pass of a token that was made with this table. It knows nothing yet.
    pub fn pass<'t>(&'t self, token: PassToken) -> SharedPass<'t>
        requires own { IsOf self.now token }
        ensures pass { result ≡ token }
        ensures unbegun { token.view ≡ fresh token.view.tokens }
        ensures nothing { (id : ℕ) → find_in (pass_view result) id ≡ None }
    {
        let _layout = &self.layout;
        let PassToken { layout: _, place } = token;
        let stock = Stock {
            next: 0,
            end: 0,
            chunk: 0,
        };
        SharedPass {
            table: self,
            place,
            stock,
        }
    }
}
