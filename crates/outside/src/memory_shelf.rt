ghost use Rattle.std.specs.Prelude.{◌≡◌, ◌≤◌, ◌↔◌, ◌&&◌, ◌||◌, not, Some, OnOk, OnErr, IsErrOf, IsTrue, is_none};
ghost use Rattle.std.specs.Option.{option_copied};
ghost use Rattle.std.specs.FinMap as map;
ghost use Rattle.std.specs.FinSet as set;
ghost use Rattle.outside.specs.Count.{raised};
ghost use Rattle.outside.specs.Shelf.{Lacks, AppendsFile, CountsFault};
ghost use Rattle.outside.specs.MemoryShelf.{empty_shelf, file_of, fails_next, has_longer, after_fetch};

use crate::{FetchError, Shelf};
use std::alloc::{AllocError, Global};
use std::collections::{BTreeMap, BTreeSet};
use std::marker::Model;

/// A shelf in memory. It tells its files, and a fetch fails where it is asked to.
#[derive(Drop)]
pub struct MemoryShelf {
    alloc: Global,
    files: BTreeMap<String, Vec<u8>>,
    failing: BTreeSet<u64>,
    fetches: u64,
    faults: u64,
}

impl Model for MemoryShelf {
    ghost use Rattle.std.specs.Prelude.{map};
    ghost use Rattle.std.specs.String.{string_bytes};
    ghost use Rattle.std.specs.FinMap as map;
    ghost use Rattle.std.specs.FinSet as set;
    ghost use Rattle.outside.specs.MemoryShelf.{ShelfState, shelf_code};

    ghost Value = { ShelfState };

    ghost coded = { shelf_code };

    ghost view = { λ s. record {
      files = map.from_entries (map (λ e. (string_bytes e.0, e.1.items)) s.files.entries);
      failing = set.from_list s.failing.keys;
      fetches = s.fetches;
      faults = s.faults;
    } };
}

impl MemoryShelf {
    /// A shelf without files, on which no fetch is to fail.
    pub fn new(alloc: Global) -> MemoryShelf
        ensures { result ≡ empty_shelf }
    {
        MemoryShelf {
            alloc,
            files: BTreeMap::new(alloc),
            failing: BTreeSet::new(alloc),
            fetches: 0,
            faults: 0,
        }
    }

    /// Sets the file of this name, in the place of one that is there.
    pub fn file(&mut self, name: &str, bytes: &[u8]) -> Result<(), AllocError>
        ensures ok { OnOk result (self.new ≡ record self.old { files = map.insert self.old.files name.now bytes.now }) }
        ensures err { OnErr result (self.new ≡ self.old) }
    {
        let name = String::from_str(self.alloc, name)?;
        let bytes = Vec::from_slice(self.alloc, bytes)?;
        self.files.insert(name, bytes)?;
        Ok(())
    }

    /// Makes the fetch of this number fail, counted from 1 over the shelf's life.
    pub fn fail(&mut self, fetch: u64) -> Result<(), AllocError>
        ensures ok { OnOk result (self.new ≡ record self.old { failing = set.insert self.old.failing fetch }) }
        ensures err { OnErr result (self.new ≡ self.old) }
    {
        self.failing.insert(fetch)?;
        Ok(())
    }

    // Counts a fetch, and its fault where it is one that is to fail.
    fn begin_fetch(&mut self) -> bool
        ensures fails { result ≡ fails_next self.old }
        ensures after { self.new ≡ after_fetch self.old }
    {
        self.fetches = self.fetches.saturating_add(1);
        let fails = self.failing.contains(&self.fetches);
        if fails {
            self.faults = self.faults.saturating_add(1);
        }
        fails
    }

    fn bytes_of(&self, name: &str) -> Option<&[u8]>
        ensures { option_copied result ≡ file_of self.now name.now }
    {
        match self.files.get(name) {
            Some(bytes) => Some(bytes.as_slice()),
            None => None,
        }
    }
}

impl Shelf for MemoryShelf {
    ghost files = { λ s. Some (file_of s) };

    ghost fetches = { λ s. s.fetches };

    ghost faults = { λ s. s.faults };

    fn fetch(&mut self, name: &str, limit: usize, into: &mut Vec<u8>) -> Result<(), FetchError>
        ensures ok { OnOk result (AppendsFile (Some (file_of self.old name.now)) limit into.old.items into.new.items) }
        ensures err { OnErr result (into.new.items ≡ into.old.items) }

        // `Failed` exactly where this fetch is one that is to fail or the name is absent, and `TooLong` exactly at
        // another fetch of a longer file.
        ensures after { self.new ≡ after_fetch self.old }
        ensures failed { IsErrOf result FetchError.Failed ↔ IsTrue (fails_next self.old || is_none (file_of self.old name.now)) }
        ensures too_long { IsErrOf result FetchError.TooLong ↔ IsTrue (not (fails_next self.old) && has_longer self.old name.now limit) }
    {
        if self.begin_fetch() {
            return Err(FetchError::Failed);
        }
        let Some(bytes) = self.bytes_of(name) else {
            return Err(FetchError::Failed);
        };
        if bytes.len() > limit {
            return Err(FetchError::TooLong);
        }
        into.extend_from_slice(bytes)?;
        Ok(())
    }
}
