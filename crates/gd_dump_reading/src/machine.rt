//! The grammars of dumps, as machines that read their input piece by piece.

ghost use Rattle.std.specs.Prelude.{◌≡◌, ℕ, List, ◌+◌, ◌-◌, ◌^◌, ◌<◌, ◌≤◌, None, length, IfOk, OnOk};

use crate::items::{Fed, Item, Refusal};
use gd_base::OutOfMemory;
use std::alloc::Global;

/// Reads the dumps of one grammar. No memory is taken but by `prepare`.
pub trait Machine: Drop {
    ghost use Rattle.gd_dump_reading.specs.Told.{Ends, GoesOn, NoneEnds, Steps, Told, Waits};

    /// What a whole input is read as.
    ghost reads: { List ℕ → Told };

    /// What it still gives, by what is left of the input.
    ghost left: { Self → List ℕ → Told };

    /// How many bytes were taken.
    ghost taken: { Self → ℕ };

    /// The lengths of all the lists that it keeps, and of those of the pair that is being read.
    ghost kept: { Self → ℕ };

    ghost pair_kept: { Self → ℕ };

    /// There is room for so many bytes more.
    ghost has_room: { Self → ℕ → Type 0 };

    /// Nothing was taken.
    fn new(alloc: Global) -> Self
        ensures left { (bytes : List ℕ) → left result bytes ≡ reads bytes }
        ensures taken { taken result ≡ 0 };

    /// Makes room for so many bytes more. Without memory all is as before.
    fn prepare(&mut self, more: usize) -> Result<(), OutOfMemory>
        requires { more < 2 ^ 63 }
        ensures room { OnOk result (has_room self.new more) }
        ensures left { (rest : List ℕ) → left self.new rest ≡ left self.old rest }
        ensures taken { taken self.new ≡ taken self.old }
        ensures kept { kept self.new ≡ kept self.old };

    /// Takes some of a piece, or what has come gives an item or is refused.
    fn step(&mut self, piece: &[u8]) -> Result<Fed, Refusal>
        requires fits { taken self.old + length piece.now ≤ 2 ^ 63 - 1 }
        requires room { has_room self.old (length piece.now) }
        ensures steps { Steps (left self.old) (left self.new) (taken self.old) (taken self.new) piece.now result }
        ensures goes_on { GoesOn piece.now result }
        ensures waits { Waits (left self.new) (taken self.new) result }
        ensures room { IfOk result (λ fed. fed.item ≡ None → has_room self.new (length piece.now - fed.taken)) };

    /// The input has ended: the next item, if there is one.
    fn end(&mut self) -> Result<Option<Item>, Refusal>
        ensures { Ends (left self.old) (left self.new) (taken self.old) (taken self.new) result };

    /// The lengths of all the lists that are kept.
    fn held(&self) -> u64
        ensures sum { result ≡ kept self.now }
        ensures bound { result ≤ pair_kept self.now + 140000 };
}
