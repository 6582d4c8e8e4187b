//! One atomic step on the words of the table, and what it tells.
ghost use Rattle.std.specs.Prelude.{◌≡◌, ℕ, ◌<◌, ◌==◌};
ghost use prog.Atomic.{either};
ghost use Rattle.table_rule.specs.Steps.{Event};
ghost use Rattle.table_rule.specs.declared.layout.Layout.{Layout};
ghost use Rattle.unique_table.specs.Taking.{CanTake, HasTaken, HasWritten, IsSameSeat};

use atomic_table::{Join, Play, Seat, Shared, Split, TableRule};
use std::marker::{Brand, PhantomData};
use table_rule::{Layout, PassView};

/// The rule of the words.
pub(crate) struct Rules;

impl TableRule<(), PassView, Layout> for Rules {
    ghost use Rattle.table_rule.specs.Views.{first_view};
    ghost use Rattle.unique_table.specs.Taking.{IsTable};

    ghost holds = { IsTable };

    ghost first = { first_view };
}

pub(crate) type Words = Shared<(), PassView, Layout, Rules>;

pub(crate) type Place = Seat<(), PassView>;

/// Which step is taken, in a table of which layout. Each call of a program picks it.
pub(crate) trait Taking {
    ghost layout: { Layout };

    // By the word that is found.
    ghost event: { ℕ → Event };
}

impl Taking for Brand {
    ghost use Rattle.unique_table.specs.Taking.{no_layout, no_event};

    ghost layout = { no_layout };

    ghost event = { no_event };
}

pub(crate) struct Takes<E> {
    step: PhantomData<E>,
}

impl<E: Taking> Play<(), PassView> for Takes<E> {
    ghost use Rattle.unique_table.specs.Taking.{Told};

    ghost then = { Told E.layout E.event };
}

// A store tells nothing of the word that was there.
pub(crate) struct Writes<E> {
    step: PhantomData<E>,
}

impl<E: Taking> Play<(), PassView> for Writes<E> {
    ghost use Rattle.unique_table.specs.Taking.{ToldWriter};

    ghost then = { ToldWriter E.layout E.event };
}

/// A split after which the new pass knows the same.
pub(crate) struct Forks;

impl Split<PassView> for Forks {
    ghost use Rattle.table_rule.specs.Views.{forked_left, forked_right};

    ghost left = { forked_left };

    ghost right = { forked_right };
}

/// A split by which the new pass gets a token.
pub(crate) struct Deals;

impl Split<PassView> for Deals {
    ghost use Rattle.table_rule.specs.Views.{dealt_left, dealt_right};

    ghost left = { dealt_left };

    ghost right = { dealt_right };
}

/// A pass takes in another, which ends.
pub(crate) struct Meets;

impl Join<PassView> for Meets {
    ghost use Rattle.table_rule.specs.Views.{joined_view, ended_view};

    ghost both = { joined_view };

    ghost spent = { ended_view };
}

pub(crate) fn load<E: Taking>(words: &Words, place: &mut Place, word: usize) -> u64
    requires own { place.old.table_id ≡ words.now.table_id }
    requires within { word < words.now.table_id.words }
    requires key { words.now.key ≡ E.layout }
    requires allowed { CanTake E.layout E.event place.old.me.0 word (λ n. n) }
    ensures same { IsSameSeat place.old place.new }
    ensures taken { HasTaken E.layout E.event place.old.me.0 word result place.new.me.0 }
{
    words.load::<Takes<E>>(place, word)
}

pub(crate) fn store<E: Taking>(words: &Words, place: &mut Place, word: usize, new: u64)
    requires own { place.old.table_id ≡ words.now.table_id }
    requires within { word < words.now.table_id.words }
    requires key { words.now.key ≡ E.layout }
    requires allowed { CanTake E.layout E.event place.old.me.0 word (λ _. new) }
    ensures same { IsSameSeat place.old place.new }
    ensures taken { HasWritten E.layout E.event place.old.me.0 place.new.me.0 }
{
    words.store::<Writes<E>>(place, word, new)
}

pub(crate) fn exchange<E: Taking>(words: &Words, place: &mut Place, word: usize, new: u64) -> u64
    requires own { place.old.table_id ≡ words.now.table_id }
    requires within { word < words.now.table_id.words }
    requires key { words.now.key ≡ E.layout }
    requires allowed { CanTake E.layout E.event place.old.me.0 word (λ n. either (n == 0) new n) }
    ensures same { IsSameSeat place.old place.new }
    ensures taken { HasTaken E.layout E.event place.old.me.0 word result place.new.me.0 }
{
    words.compare_exchange::<Takes<E>>(place, word, 0, new)
}
