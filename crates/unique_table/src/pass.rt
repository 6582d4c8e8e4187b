ghost use Rattle.std.specs.Prelude.{◌≡◌, length, Some};
ghost use Rattle.record_store.specs.Interns.{Interns};
ghost use Rattle.record_store.specs.StoreView.{find_in, IsKnown};
ghost use Rattle.table_rule.specs.Stores.{AreOfOneTable};
ghost use Rattle.table_rule.specs.Views.{forked_left, forked_right};
ghost use Rattle.unique_table.specs.Passes.{pass_view, with_view, IsOneTable, IsSoundPass, HasMet};

use crate::probe::find_or_add;
use crate::step::{Forks, Meets, Place};
use crate::stock::Stock;
use crate::table::SharedTable;
use crate::walk::{first_word, look_chunk, read_word};
use record_store::{Store, StoreFull};
use std::marker::Model;

/// What one thread knows of a shared table, and the cells that it owns there. As a store it knows what it has interned and
/// what passes that met in it knew.
#[derive(Drop)]
pub struct SharedPass<'t> {
    pub(crate) table: &'t SharedTable,
    pub(crate) place: Place,
    pub(crate) stock: Stock,
}

impl<'t> Model for SharedPass<'t> {
    ghost use Rattle.unique_table.specs.PassInside.{IsPass};
    ghost use Rattle.unique_table.specs.declared.token.PassValue.{PassValue};

    ghost Value = { PassValue };

    ghost view = { λ p. record { names = p.table.now.names; layout = p.table.now.layout; view = p.place.me.0 } };

    ghost invariant = { λ p. IsPass p.table.now p.place p.stock };
}

impl<'t> Store for SharedPass<'t> {
    ghost view = { pass_view };

    fn intern(&mut self, body: &[u64; 8]) -> Result<u32, StoreFull>
        ensures interns { Interns (pass_view self.old) (pass_view self.new) body.now result }
        ensures table { IsOneTable self.old self.new }
    {
        find_or_add(self.table, &mut self.place, &mut self.stock, body)
    }

    fn fields(&mut self, id: u32) -> [u64; 8]
        requires { IsKnown (pass_view self.old) id }
        ensures body { find_in (pass_view self.old) id ≡ Some result }
        ensures unchanged { pass_view self.new ≡ pass_view self.old }
        ensures table { IsOneTable self.old self.new }
    {
        let table = self.table;
        let first = first_word(table, &self.place, id);
        let mut body = [0; 8];
        for i in 0..8 {
            body[i] = read_word(table, &mut self.place, id, first, i);
        }
        body
    }
}

impl<'t> SharedPass<'t> {
    /// A pass that knows the same, has made nothing and owns no cell.
    pub fn split(&mut self) -> SharedPass<'t>
        ensures kept { self.new ≡ with_view self.old (forked_left self.old.view) }
        ensures split { result ≡ with_view self.old (forked_right self.old.view) }
    {
        let table = self.table;
        let words = &table.table.shared;
        let place = words.split_seat::<Forks>(&mut self.place);
        let stock = Stock {
            next: 0,
            end: 0,
            chunk: self.stock.chunk,
        };
        SharedPass {
            table,
            place,
            stock,
        }
    }

    /// Takes in another pass of the table, whose unused cells are given up.
    pub fn meet(&mut self, other: SharedPass<'t>)
        requires table { AreOfOneTable (pass_view self.old) (pass_view other) }
        ensures met { HasMet self.old other.entry self.new }
        ensures sound { IsSoundPass self.new }
    {
        let SharedPass {
            table: _,
            place,
            stock: _,
        } = other;
        let table = self.table;
        let words = &table.table.shared;
        words.join_seat::<Meets>(&mut self.place, place);
        look_chunk(table, &mut self.place, 0);
    }

    /// How many cells it owns that it has not published. The contract tells what holds of every pass.
    pub fn unused(&self) -> u32
        ensures count { result ≡ length self.now.view.held }
        ensures pass { IsSoundPass self.now }
    {
        self.stock.end - self.stock.next
    }
}
