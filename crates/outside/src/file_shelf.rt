ghost use Rattle.std.specs.Prelude.{◌≡◌, ℕ, List, Option, OnOk, OnErr, IsErrOf};
ghost use Rattle.outside.specs.FileShelf.{ShelfOver, after_fetch};
ghost use Rattle.outside.specs.Shelf.{told, Lacks, AppendsFile, IsLonger, is_failed};

use crate::reading::read_named;
use crate::{FetchError, Opener, Shelf};
use std::marker::Model;

/// The files of the system as a shelf. It tells what the system tells of them.
#[derive(Drop)]
pub struct FileShelf<S> {
    system: S,
    fetches: u64,
    faults: u64,
}

impl<S> Model for FileShelf<S> {
    ghost use Rattle.outside.specs.FileShelf.{ShelfOver};

    ghost Value = { ShelfOver S };

    ghost view = { λ s. record { system = s.system; fetches = s.fetches; faults = s.faults } };
}

impl<S: Opener> FileShelf<S> {
    /// A shelf of which nothing was fetched yet.
    pub fn new(system: S) -> FileShelf<S>
        ensures { result ≡ record { system = system; fetches = 0; faults = 0 } }
    {
        FileShelf {
            system,
            fetches: 0,
            faults: 0,
        }
    }
}

impl<S: Opener> Shelf for FileShelf<S> {
    ghost files = { λ s. S.files s.system };

    ghost fetches = { λ s. s.fetches };

    ghost faults = { λ s. s.faults };

    fn fetch(&mut self, name: &str, limit: usize, into: &mut Vec<u8>) -> Result<(), FetchError>
        ensures ok { OnOk result (AppendsFile (told (S.files self.old.system) name.now) limit into.old.items into.new.items) }
        ensures err { OnErr result (into.new.items ≡ into.old.items) }
        ensures absent { Lacks (S.files self.old.system) name.now → IsErrOf result FetchError.Failed }
        ensures too_long { IsErrOf result FetchError.TooLong → IsLonger (told (S.files self.old.system) name.now) limit }

        // It counts a fault exactly where it answers `Failed`.
        ensures after { self.new ≡ after_fetch (is_failed result) self.old }
    {
        let fetched = read_named(&self.system, name, limit, into);
        self.fetches = self.fetches.saturating_add(1);
        if fetched == Err(FetchError::Failed) {
            self.faults = self.faults.saturating_add(1);
        }
        fetched
    }
}
