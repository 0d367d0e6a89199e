//! The readers of dumps.

ghost use Rattle.std.specs.Prelude.{◌≡◌, ℕ, List, ◌+◌, ◌-◌, ◌^◌, ◌≤◌, None, Some, length, IfOk};
ghost use Rattle.gd_dump_reading.specs.Told.{Feeds, Finishes, NoneEnds, Repeats, Runs};
ghost use Rattle.gd_dump_reading.specs.Readers.{left_by, taken_by};

use crate::ascii_machine::AsciiMachine;
use crate::binary_machine::BinaryMachine;
use crate::items::{DumpError, Fed, Item, Refusal};
use crate::machine::Machine;
use std::alloc::Global;

/// Reads a dump that comes in pieces.
///
/// `feed` takes a piece up to the end of the first item in it, and the rest of the piece is to come again. A head ends
/// with the line feed of its last line. A pair of an ASCII dump ends with the `#` that begins the line after its value's
/// text, one of a binary dump with the last byte of its value. The end of an ASCII dump ends with the line feed of its
/// last line; a head and an end without their line feed, and the end of a binary dump, come from `finish`.
///
/// After a refusal each call answers it again. After want of memory the reader is as before.
#[derive(Debug, Drop)]
pub struct Reader<M: Machine> {
    pub(crate) machine: M,
    pub(crate) stop: Option<Refusal>,
}

/// The reader of ASCII dumps.
pub type AsciiReader = Reader<AsciiMachine>;

/// The reader of binary dumps.
pub type BinaryReader = Reader<BinaryMachine>;

fn refused(stop: Refusal) -> DumpError
    ensures { result ≡ DumpError.Bad stop.kind stop.place }
{
    DumpError::Bad {
        kind: stop.kind,
        place: stop.place,
    }
}

// Steps up to the first item, or to the end of the piece.
fn run<M: Machine>(machine: &mut M, piece: &[u8]) -> Result<Fed, Refusal>
    requires fits { M.taken machine.old + length piece.now ≤ 2 ^ 63 - 1 }
    requires room { M.has_room machine.old (length piece.now) }
    ensures runs { Runs (M.left machine.old) (M.left machine.new) (M.taken machine.old) (M.taken machine.new) piece.now result }
    ensures none { IfOk result (λ fed. fed.item ≡ None → NoneEnds (M.left machine.new) (M.taken machine.new)) }
{
    let mut at = 0;
    loop {
        let fed = machine.step(&piece[at..])?;
        at += fed.taken;
        if fed.item.is_some() || fed.taken == 0 {
            return Ok(Fed {
                taken: at,
                item: fed.item,
            });
        }
    }
}

impl<M: Machine> Reader<M> {
    pub fn new(alloc: Global) -> Reader<M>
        ensures left { (bytes : List ℕ) → left_by M.left result bytes ≡ M.reads bytes }
        ensures taken { taken_by M.taken result ≡ 0 }
        ensures refusal { result.stop ≡ None }
    {
        Reader {
            machine: M::new(alloc),
            stop: None,
        }
    }

    /// Takes the piece up to the end of the first item in it.
    pub fn feed(&mut self, piece: &[u8]) -> Result<Fed, DumpError>
        requires { taken_by M.taken self.old + length piece.now ≤ 2 ^ 63 - 1 }
        ensures feeds { Feeds (left_by M.left self.old) (left_by M.left self.new) (taken_by M.taken self.old) (taken_by M.taken self.new) piece.now result }
        ensures again { Repeats self.old.stop self.new.stop result }
        ensures whole { IfOk result (λ fed. fed.item ≡ None → fed.taken ≡ length piece.now) }
        ensures none { IfOk result (λ fed. fed.item ≡ None → NoneEnds (left_by M.left self.new) (taken_by M.taken self.new)) }
    {
        if let Some(stop) = self.stop {
            return Err(refused(stop));
        }
        if self.machine.prepare(piece.len()).is_err() {
            return Err(DumpError::OutOfMemory);
        }
        match run(&mut self.machine, piece) {
            Ok(fed) => Ok(fed),
            Err(stop) => {
                self.stop = Some(stop);
                Err(refused(stop))
            }
        }
    }

    /// The input has ended: the next item that is left, if there is one. No memory is taken.
    pub fn finish(&mut self) -> Result<Option<Item>, DumpError>
        ensures again { Repeats self.old.stop self.new.stop result }
        ensures finishes { Finishes (left_by M.left self.old) (left_by M.left self.new) (taken_by M.taken self.old) (taken_by M.taken self.new) result }
    {
        if let Some(stop) = self.stop {
            return Err(refused(stop));
        }
        match self.machine.end() {
            Ok(item) => Ok(item),
            Err(stop) => {
                self.stop = Some(stop);
                Err(refused(stop))
            }
        }
    }

    /// The lengths of all the lists that are kept: at most the bytes of the pair that is being read, and 140,000.
    pub fn held(&self) -> u64
        ensures sum { result ≡ M.kept self.now.machine }
        ensures bound { result ≤ M.pair_kept self.now.machine + 140000 }
    {
        self.machine.held()
    }
}
