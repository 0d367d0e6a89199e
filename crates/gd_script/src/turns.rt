//! What a run keeps of each line.

ghost use Rattle.std.specs.Prelude.{◌≡◌, []};

use gd_lang::LangError;
use gd_session::Reply;
use std::alloc::Global;
use std::marker::Model;

/// What a line is answered.
#[derive(Clone, Copy, Debug, PartialEq, Eq)]
pub enum Answer {
    /// A line without words.
    Nothing,
    /// A line that is no command.
    Lang(LangError),
    Command(Reply),
}

/// How often each object has failed.
#[derive(Clone, Copy, Debug, PartialEq, Eq)]
pub struct Faults {
    pub input: u64,
    pub out: u64,
    pub err: u64,
    pub vault: u64,
    pub clock: u64,
}

/// The answer of a line, and moment and counts at the end of its turn, behind its error line.
#[derive(Clone, Copy, Debug, PartialEq, Eq)]
pub struct Turn {
    pub answer: Answer,
    /// The vault's moment.
    pub done: u64,
    pub faults: Faults,
    /// The reading that the clock gave in the turn.
    pub reading: Option<u64>,
}

/// The turns of a run, one an answered line.
#[derive(Debug, Drop)]
pub struct Turns {
    items: Vec<Turn>,
}

impl Model for Turns {
    ghost use Rattle.std.specs.Prelude.{List};
    ghost use Rattle.gd_script.specs.declared.turns.Turn.{Turn};

    ghost Value = { List Turn };

    ghost view = { λ t. t.items.items };
}

impl From<Vec<Turn>> for Turns {
    ghost from_gives = { λ v t. t ≡ v.items };

    fn from(items: Vec<Turn>) -> Turns {
        Turns { items }
    }
}

impl Turns {
    /// No turns. Takes no memory.
    pub fn new(alloc: Global) -> Turns
        ensures { result ≡ [] }
    {
        Turns {
            items: Vec::new(alloc),
        }
    }

    pub fn as_slice(&self) -> &[Turn]
        ensures { result.now ≡ self.now }
    {
        self.items.as_slice()
    }
}
