ghost use Rattle.std.specs.Prelude.{ℕ, List, Option, None, IfOk};
ghost use Rattle.outside.specs.Opener.{GivesFile};
ghost use Rattle.outside.specs.Shelf.{told};

use std::io::Read;
use std::rt::Files;
use std::{fs, io};

/// Opens files to be read, by their names.
pub trait Opener {
    type File: Read + Drop;

    /// The bytes of the file of each name, where there is one. `None` where the opener does not tell.
    ghost files: { Self → Option (List ℕ → Option (List ℕ)) };

    /// The file of this name, of which nothing is read yet.
    fn open(&self, name: &str) -> io::Result<Self::File>
        ensures { IfOk result (λ file. GivesFile (told (files self.now) name.now) (Self.File.remaining file)) };
}

/// The files of the system, which tells nothing of them.
impl<R: Files> Opener for R {
    type File = R::File;

    ghost files = { λ _. None };

    fn open(&self, name: &str) -> io::Result<R::File> {
        fs::open(self, name)
    }
}
