ghost use Rattle.std.specs.Prelude.{◌≡◌, ◌≤◌, length, take, drop};
ghost use Rattle.unique_table.specs.Values.{IsOf, begun};

use crate::step::{Deals, Place};
use crate::table::SharedTable;
use std::collections::LinkedList;
use std::marker::Model;
use table_rule::{Layout, PassView};

/// What contracts see of a pass: its table, by the numbers that name it, and its view of it. No value of it is made.
pub struct PassValue {
    pub names: LinkedList<u64>,
    pub layout: Layout,
    pub view: PassView,
}

/// The right to one of the passes that a table is made with.
#[derive(Drop)]
pub struct PassToken {
    pub(crate) layout: Layout,
    pub(crate) place: Place,
}

impl Model for PassToken {
    ghost use Rattle.unique_table.specs.Values.{names_of, IsToken};
    ghost use Rattle.unique_table.specs.declared.token.PassValue.{PassValue};

    ghost Value = { PassValue };

    ghost view = { λ t. record { names = names_of t.place.table_id; layout = t.layout; view = t.place.me.0 } };

    ghost invariant = { λ t. IsToken t.layout t.place.me };
}

impl PassToken {
    /// Gives the first of its tokens to a pass of its own.
    pub(crate) fn deal(&mut self, table: &SharedTable) -> PassToken
        requires own { IsOf table.now self.old }
        requires two { 2 ≤ length self.old.view.tokens }
        ensures kept { self.new ≡ begun table.now (drop 1 self.old.view.tokens) }
        ensures dealt { result ≡ begun table.now (take 1 self.old.view.tokens) }
    {
        let words = &table.table.shared;
        let place = words.split_seat::<Deals>(&mut self.place);
        PassToken {
            layout: table.layout,
            place,
        }
    }
}
