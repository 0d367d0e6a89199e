//! The beginning of a load: the dump that a source has, by its first byte, up to the end of its head.

ghost use Rattle.std.specs.Prelude.{◌≡◌, ℕ, ◌≤◌, ◌^◌, List, IfErr, OnOk};
ghost use Rattle.gd_load.specs.Front.{Counted, GivesHead, IsDump, IsHead, Starts};
ghost use Rattle.gd_load.specs.Items.{Counts, EndsWith, ReadOn, StopsFor, incoming_left};

use crate::incoming::{Incoming, Stop};
use gd_base::Source;
use gd_dump_reading::{AsciiMachine, BinaryMachine, DumpHead, Item, Machine};
use std::alloc::Global;

/// A dump from a source, with the reader that its first byte chose.
#[derive(Drop)]
pub enum Front {
    Ascii(Incoming<AsciiMachine>),
    Binary(Incoming<BinaryMachine>),
}

/// A dump whose head came.
#[derive(Drop)]
pub struct Begun {
    pub front: Front,
    pub head: DumpHead,
    /// Where the head ends.
    pub place: u64,
}

fn head_of(item: Item) -> DumpHead
    requires { IsHead item }
    ensures { item ≡ Item.Head result }
{
    match item {
        Item::Head(head) => head,
        _ => unreachable!(),
    }
}

// The head of a dump of which no item has come.
fn next_head<M: Machine, S: Source>(dump: &mut Incoming<M>, input: &mut S) -> Result<DumpHead, Stop>
    requires ended { EndsWith dump.old.ended (S.left input.old) }
    requires begins { (rest : List ℕ) → IsDump (incoming_left dump.old rest) }
    ensures gives { ReadOn (S.left input.old) (S.left input.new) (λ bytes. Counts dump.old dump.new bytes × GivesHead dump.old dump.new bytes result) }
    ensures few { dump.new.read ≤ 2 ^ 32 }
    ensures going { OnOk result (dump.new.reader.stop ≡ None) }
    ensures ended { EndsWith dump.new.ended (S.left input.new) }
    ensures cause { IfErr result (λ stop. StopsFor stop (S.fault_count input.old) (S.fault_count input.new) dump.new.read) }
    ensures answered { OnOk result (S.fault_count input.new ≡ S.fault_count input.old) }
{
    match dump.next(input) {
        Ok(Some(item)) => Ok(head_of(item)),
        Ok(None) => unreachable!(),
        Err(stop) => Err(stop),
    }
}

/// Begins to read a dump, up to the end of its head: a binary dump where the first byte is `!`, else an ASCII one. What
/// follows the head comes from the front, with the rest of the source.
///
/// No more is read than the head needs, but for what a page holds behind it, and at most 2^32 bytes.
pub fn start<S: Source>(alloc: Global, input: &mut S) -> Result<Begun, Stop>
    ensures starts { Starts (S.left input.old) (S.left input.new) result }
    ensures counted { Counted result (S.fault_count input.old) (S.fault_count input.new) }
{
    let mut first = Incoming::<AsciiMachine>::new(alloc);
    if let Err(stop) = first.turn_page(input) {
        return Err(stop);
    }
    if first.begins_with(b"!") {
        let mut dump = first.with_machine::<BinaryMachine>(alloc);
        return match next_head(&mut dump, input) {
            Ok(head) => Ok(Begun {
                place: dump.taken(),
                front: Front::Binary(dump),
                head,
            }),
            Err(stop) => Err(stop),
        };
    }
    match next_head(&mut first, input) {
        Ok(head) => Ok(Begun {
            place: first.taken(),
            front: Front::Ascii(first),
            head,
        }),
        Err(stop) => Err(stop),
    }
}
