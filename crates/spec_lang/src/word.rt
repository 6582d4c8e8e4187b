ghost use Rattle.std.specs.Prelude.{◌≡◌, length, ◌<◌, ◌≤◌, string_bytes};
ghost use Rattle.spec_lang.specs.Specification.{named_word};
ghost use Rattle.spec_lang.specs.WellFormed.{IsSizedWord};

use std::marker::Model;

/// A name and the nets that it stands for by number, the one of weight 1 first: 1 to 127 of them, where
/// a net may stand several times.
#[derive(Debug, Drop)]
pub struct Word {
    name: String,
    nets: Vec<u32>,
}

impl Model for Word {
    ghost use Rattle.std.specs.Prelude.{string_bytes};
    ghost use Rattle.spec_lang.specs.Specification.{Word, named_word};
    ghost use Rattle.spec_lang.specs.WellFormed.{IsSizedWord};

    ghost Value = { Word };

    ghost view = { λ word. named_word (string_bytes word.name) word.nets.items };

    ghost invariant = { λ word. IsSizedWord (named_word (string_bytes word.name) word.nets.items) };
}

impl Word {
    /// The word of this name and these nets.
    pub fn new(name: String, nets: Vec<u32>) -> Word
        requires { IsSizedWord (named_word (string_bytes name) nets.items) }
        ensures { result ≡ named_word (string_bytes name) nets.items }
    {
        Word { name, nets }
    }

    /// The word's name.
    pub fn name(&self) -> &str
        ensures { result.now ≡ self.now.name }
    {
        self.name.as_str()
    }

    /// The nets by number, the one of weight 1 first.
    pub fn nets(&self) -> &[u32]
        ensures nets { result.now ≡ self.now.nets }
        ensures sized { IsSizedWord self.now }
    {
        self.nets.as_slice()
    }
}
