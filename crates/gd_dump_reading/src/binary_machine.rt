//! The steps of the reader of binary dumps.

ghost use Rattle.std.specs.Prelude.{[], ◌≡◌, ℕ, List, slice_index, ◌+◌, ◌-◌, ◌^◌, ◌≤◌, ◌<◌, None, Ok, length, take, drop, codes, vec_capacity, vec_len, IfOk};
ghost use Rattle.gd_dump_reading.specs.BinaryItems.{is_head_line, is_no_head, number_at};
ghost use Rattle.gd_dump_reading.specs.BinaryFront.{is_no_front};
ghost use Rattle.gd_dump_reading.specs.BinaryDemand.{DemandIs, needed, pair_room, room};
ghost use Rattle.gd_dump_reading.specs.Lines.{NoFeed};

use crate::items::{DumpHead, DumpKind, Fed, Item, Refusal};
use crate::lines::{contains_part, overlong};
use crate::machine::Machine;
use crate::room::append;
use gd_base::{Datum, OutOfMemory};
use memchr::memchr;
use std::alloc::Global;
use std::mem::replace;

const HIGHEST: usize = 1 << 30;

/// What of a dump is read.
#[derive(Clone, Copy, Debug, PartialEq, Eq)]
pub enum Phase {
    /// The head, with so many of its lines to come.
    Head(u8),
    Pairs,
    Ended,
}

/// What the bytes of a pair that have come say of its size.
#[derive(Clone, Copy, Debug, PartialEq, Eq)]
pub enum Demand {
    /// Nothing before there are so many bytes.
    More(usize),
    /// They are whole, with a key and a value of these lengths.
    Whole(usize, usize),
    /// The length at this place is too large.
    TooLarge(usize),
}

/// The bytes of a line of the head, or of a pair, that have come, with their place in the input.
#[derive(Debug, Drop)]
pub struct BinaryMachine {
    alloc: Global,
    held: Vec<u8>,
    // Room for a key and a value.
    first: Vec<u8>,
    second: Vec<u8>,
    place: u64,
    phase: Phase,
    ghost in_range: { place + vec_len held ≤ 2 ^ 63 - 1 },
    ghost no_more: { vec_len held ≤ room phase held.items },
    ghost empty: { vec_len first + vec_len second ≡ 0 },
    ghost roomy: { vec_len held ≤ pair_room phase (vec_capacity first) (vec_capacity second) (vec_len held) },
}

fn head_line(after: u8, line: &[u8]) -> bool
    ensures { result ≡ is_head_line after line.now }
{
    line.starts_with(b"!")
        && !overlong(line, true)
        && (after != 2 || contains_part(line, b"GDBM FLAT FILE DUMP"))
}

// Can no line of the head begin so?
fn no_front(line: &[u8]) -> bool
    ensures { result ≡ is_no_front line.now }
{
    !line.is_empty() && !line.starts_with(b"!") || overlong(line, true)
}

fn no_head(line: &[u8]) -> bool
    ensures { result ≡ is_no_head line.now }
{
    !line.is_empty() && !line.starts_with(b"!") || overlong(line, false)
}

fn length_at(bytes: &[u8], at: usize) -> usize
    requires { at + 4 ≤ length bytes.now }
    ensures value { result ≡ number_at (drop at bytes.now) }
    ensures bound { result < 2 ^ 32 }
{
    let bytes = [bytes[at], bytes[at + 1], bytes[at + 2], bytes[at + 3]];
    u32::from_be_bytes(bytes) as usize
}

fn demand_of(held: &[u8]) -> Demand
    ensures { DemandIs held.now result }
{
    if held.len() < 4 {
        return Demand::More(4);
    }
    let key = length_at(held, 0);
    if key > HIGHEST {
        return Demand::TooLarge(0);
    }
    if held.len() < 8 + key {
        return Demand::More(8 + key);
    }
    let value = length_at(held, 4 + key);
    if key + value > HIGHEST {
        Demand::TooLarge(4 + key)
    } else if held.len() < 8 + key + value {
        Demand::More(8 + key + value)
    } else {
        Demand::Whole(key, value)
    }
}

impl BinaryMachine {
    ghost use Rattle.gd_dump_reading.specs.BinaryHeld.{BinaryRoom};
    ghost use Rattle.gd_dump_reading.specs.BinaryLeft.{binary_left, binary_taken};
    ghost use Rattle.gd_dump_reading.specs.Told.{Ends, GivesPair, GoesOn, RefusedWith, Steps, Waits, given};

    // A piece without a line feed, in a line that `after` more follow.
    fn part_of_line(&mut self, after: u8, piece: &[u8]) -> Result<Fed, Refusal>
        requires phase { self.old.phase ≡ Phase.Head (after + 1) }
        requires room { BinaryRoom self.old (length piece.now) }
        requires fits { binary_taken self.old + length piece.now ≤ 2 ^ 63 - 1 }
        requires within { NoFeed piece.now (length piece.now) }
        ensures steps { Steps (binary_left self.old) (binary_left self.new) (binary_taken self.old) (binary_taken self.new) piece.now result }
        ensures goes_on { GoesOn piece.now result }
        ensures waits { Waits (binary_left self.new) (binary_taken self.new) result }
        ensures room { IfOk result (λ fed. fed.item ≡ None → BinaryRoom self.new (length piece.now - fed.taken)) }
    {
        append(&mut self.held, piece);
        // Too long even where a line feed comes next.
        if no_front(&self.held) {
            self.held.clear();
            return Err(Refusal {
                kind: DumpKind::Version,
                place: self.place,
            });
        }
        Ok(Fed {
            taken: piece.len(),
            item: None,
        })
    }

    // The end of a line that `after` more follow, which has a line feed behind it.
    fn end_of_line(&mut self, after: u8, piece: &[u8], end: usize) -> Result<Fed, Refusal>
        requires phase { self.old.phase ≡ Phase.Head (after + 1) }
        requires room { BinaryRoom self.old (length piece.now) }
        requires fits { binary_taken self.old + length piece.now ≤ 2 ^ 63 - 1 }
        requires inside { end < length piece.now }
        requires within { NoFeed piece.now end }
        requires feed { slice_index piece.now end ≡ 10 }
        ensures steps { Steps (binary_left self.old) (binary_left self.new) (binary_taken self.old) (binary_taken self.new) piece.now result }
        ensures goes_on { GoesOn piece.now result }
        ensures waits { Waits (binary_left self.new) (binary_taken self.new) result }
        ensures room { IfOk result (λ fed. fed.item ≡ None → BinaryRoom self.new (length piece.now - fed.taken)) }
    {
        append(&mut self.held, &piece[..end]);
        if !head_line(after, &self.held) {
            self.held.clear();
            return Err(Refusal {
                kind: DumpKind::Version,
                place: self.place,
            });
        }
        self.place += self.held.len() as u64 + 1;
        self.held.clear();
        self.phase = Phase::Head(after);
        Ok(Fed {
            taken: end + 1,
            item: None,
        })
    }

    // A piece of a line of the head, which `after` more follow.
    fn head_step(&mut self, after: u8, piece: &[u8]) -> Result<Fed, Refusal>
        requires phase { self.old.phase ≡ Phase.Head (after + 1) }
        requires room { BinaryRoom self.old (length piece.now) }
        requires fits { binary_taken self.old + length piece.now ≤ 2 ^ 63 - 1 }
        ensures steps { Steps (binary_left self.old) (binary_left self.new) (binary_taken self.old) (binary_taken self.new) piece.now result }
        ensures goes_on { GoesOn piece.now result }
        ensures waits { Waits (binary_left self.new) (binary_taken self.new) result }
        ensures room { IfOk result (λ fed. fed.item ≡ None → BinaryRoom self.new (length piece.now - fed.taken)) }
    {
        match memchr(b'\n', piece) {
            Some(end) => self.end_of_line(after, piece, end),
            None => self.part_of_line(after, piece),
        }
    }

    // More bytes of a pair, at most up to `wanted` in all.
    fn more_of_pair(&mut self, wanted: usize, piece: &[u8]) -> Result<Fed, Refusal>
        requires phase { self.old.phase ≡ Phase.Pairs }
        requires room { BinaryRoom self.old (length piece.now) }
        requires fits { binary_taken self.old + length piece.now ≤ 2 ^ 63 - 1 }
        requires more { vec_len self.old.held < wanted }
        requires wanted { wanted ≡ needed self.old.held.items }
        ensures steps { Steps (binary_left self.old) (binary_left self.new) (binary_taken self.old) (binary_taken self.new) piece.now result }
        ensures goes_on { GoesOn piece.now result }
        ensures waits { Waits (binary_left self.new) (binary_taken self.new) result }
        ensures room { IfOk result (λ fed. fed.item ≡ None → BinaryRoom self.new (length piece.now - fed.taken)) }
    {
        let taken = piece.len().min(wanted - self.held.len());
        append(&mut self.held, &piece[..taken]);
        Ok(Fed { taken, item: None })
    }

    // The pair that the held bytes begin with.
    fn whole_pair(&mut self, key: usize, value: usize) -> Item
        requires phase { self.old.phase ≡ Phase.Pairs }
        requires whole { DemandIs self.old.held.items (Demand.Whole key value) }
        ensures taken { binary_taken self.new ≡ binary_taken self.old }
        ensures pair { GivesPair (binary_left self.old) (binary_left self.new) (self.old.place + (8 + key + value)) result }
    {
        self.first.clear();
        append(&mut self.first, &self.held[4..4 + key]);
        self.second.clear();
        append(&mut self.second, &self.held[8 + key..8 + key + value]);
        let first = replace(&mut self.first, Vec::new(self.alloc));
        let second = replace(&mut self.second, Vec::new(self.alloc));
        self.held.drain(..8 + key + value);
        self.place += 8 + key as u64 + value as u64;
        Item::Pair(Datum::from(first), Datum::from(second))
    }

    fn pair_step(&mut self, piece: &[u8]) -> Result<Fed, Refusal>
        requires phase { self.old.phase ≡ Phase.Pairs }
        requires room { BinaryRoom self.old (length piece.now) }
        requires fits { binary_taken self.old + length piece.now ≤ 2 ^ 63 - 1 }
        ensures steps { Steps (binary_left self.old) (binary_left self.new) (binary_taken self.old) (binary_taken self.new) piece.now result }
        ensures goes_on { GoesOn piece.now result }
        ensures waits { Waits (binary_left self.new) (binary_taken self.new) result }
        ensures room { IfOk result (λ fed. fed.item ≡ None → BinaryRoom self.new (length piece.now - fed.taken)) }
    {
        match demand_of(&self.held) {
            Demand::More(wanted) => self.more_of_pair(wanted, piece),
            Demand::Whole(key, value) => {
                let pair = self.whole_pair(key, value);
                Ok(Fed {
                    taken: 0,
                    item: Some(pair),
                })
            }
            Demand::TooLarge(at) => Err(Refusal {
                kind: DumpKind::TooLarge,
                place: self.place + at as u64,
            }),
        }
    }

    fn start_pairs(&mut self)
        requires { self.old.phase ≡ Phase.Head 0 }
        ensures taken { binary_taken self.new ≡ binary_taken self.old }
        ensures head { (rest : List ℕ) → binary_left self.old rest ≡ given (Item.Head (record { format = None; file = None })) self.old.place (binary_left self.new rest) }
    {
        self.phase = Phase::Pairs;
    }

    // The input ends inside the head.
    fn end_of_head(&self, after: u8) -> Refusal
        requires { self.now.phase ≡ Phase.Head (after + 1) }
        ensures { RefusedWith (binary_left self.now []) result }
    {
        if no_head(&self.held) {
            return Refusal {
                kind: DumpKind::Version,
                place: self.place,
            };
        }
        Refusal {
            kind: DumpKind::Truncated,
            place: self.place + self.held.len() as u64,
        }
    }

    // The input ends before a pair, or in it.
    fn end_of_pairs(&mut self) -> Result<Option<Item>, Refusal>
        requires { self.old.phase ≡ Phase.Pairs }
        ensures { Ends (binary_left self.old) (binary_left self.new) (binary_taken self.old) (binary_taken self.new) result }
    {
        if self.held.is_empty() {
            self.phase = Phase::Ended;
            return Ok(Some(Item::End));
        }
        match demand_of(&self.held) {
            Demand::More(_wanted) => Err(Refusal {
                kind: DumpKind::Truncated,
                place: self.place + self.held.len() as u64,
            }),
            Demand::Whole(key, value) => Ok(Some(self.whole_pair(key, value))),
            Demand::TooLarge(at) => Err(Refusal {
                kind: DumpKind::TooLarge,
                place: self.place + at as u64,
            }),
        }
    }
}

impl Machine for BinaryMachine {
    ghost use Rattle.gd_dump_reading.specs.BinaryItems.{binary_items};
    ghost use Rattle.gd_dump_reading.specs.BinaryLeft.{binary_left, binary_taken};
    ghost use Rattle.gd_dump_reading.specs.BinaryHeld.{BinaryRoom, binary_kept, binary_pair};

    ghost reads = { binary_items };

    ghost left = { binary_left };

    ghost taken = { binary_taken };

    ghost kept = { binary_kept };

    ghost pair_kept = { binary_pair };

    ghost has_room = { BinaryRoom };

    fn new(alloc: Global) -> BinaryMachine {
        BinaryMachine {
            alloc,
            held: Vec::new(alloc),
            first: Vec::new(alloc),
            second: Vec::new(alloc),
            place: 0,
            phase: Phase::Head(4),
        }
    }

    fn prepare(&mut self, more: usize) -> Result<(), OutOfMemory> {
        if self.held.reserve(more).is_err() {
            return Err(OutOfMemory);
        }
        let size = self.held.len() + more;
        if self.first.reserve(size).is_err() || self.second.reserve(size).is_err() {
            return Err(OutOfMemory);
        }
        Ok(())
    }

    fn step(&mut self, piece: &[u8]) -> Result<Fed, Refusal> {
        match self.phase {
            Phase::Head(0) => {
                self.start_pairs();
                Ok(Fed {
                    taken: 0,
                    item: Some(Item::Head(DumpHead {
                        format: None,
                        file: None,
                    })),
                })
            }
            Phase::Head(lines) => self.head_step(lines - 1, piece),
            Phase::Pairs => self.pair_step(piece),
            Phase::Ended => {
                self.place += piece.len() as u64;
                Ok(Fed {
                    taken: piece.len(),
                    item: None,
                })
            }
        }
    }

    fn end(&mut self) -> Result<Option<Item>, Refusal> {
        match self.phase {
            Phase::Head(0) => {
                self.start_pairs();
                Ok(Some(Item::Head(DumpHead {
                    format: None,
                    file: None,
                })))
            }
            Phase::Head(lines) => Err(self.end_of_head(lines - 1)),
            Phase::Pairs => self.end_of_pairs(),
            Phase::Ended => Ok(None),
        }
    }

    fn held(&self) -> u64 {
        self.held.len() as u64 + self.first.len() as u64 + self.second.len() as u64
    }
}
