//! The values of one argument.

ghost use Rattle.std.specs.Prelude.{◌≡◌, ◌∷◌, ◌++◌, [], OnOk, OnErr};

use gd_base::{Datum, OutOfMemory};
use std::alloc::Global;
use std::marker::Model;

/// The values of one argument, in their order. Contracts see the list of their bytes.
#[derive(Debug, Drop)]
pub struct Words {
    words: Vec<Datum>,
}

impl Model for Words {
    ghost use Rattle.std.specs.Prelude.{ℕ, List};

    ghost Value = { List (List ℕ) };

    ghost view = { λ w. w.words.items };
}

impl Words {
    /// No values. Takes no memory.
    pub fn new(alloc: Global) -> Words
        ensures { result ≡ [] }
    {
        Words {
            words: Vec::new(alloc),
        }
    }

    /// Puts a value last. After want of memory the list stays.
    pub fn push(&mut self, word: Datum) -> Result<(), OutOfMemory>
        ensures pushed { OnOk result (self.new ≡ self.old ++ word ∷ []) }
        ensures stays { OnErr result (self.new ≡ self.old) }
    {
        match self.words.push(word) {
            Ok(()) => Ok(()),
            Err(_) => Err(OutOfMemory),
        }
    }

    pub fn as_slice(&self) -> &[Datum]
        ensures { result.now ≡ self.now }
    {
        &self.words
    }
}
