//! The items of a dump that comes from a source, page by page.

ghost use Rattle.std.specs.Prelude.{◌≡◌, ◌⊎◌, ◌++◌, ℕ, List, ◌+◌, ◌-◌, ◌^◌, ◌<◌, ◌≤◌, drop, eqb, false, true, None, Some, IfOk, IfErr, OnOk, OnErr, length, option_map, take};
ghost use Rattle.std.specs.List.{starts_with};
ghost use Rattle.gd_base.specs.Causes.{HasCause};
ghost use Rattle.gd_base.specs.Sources.{Reads};
ghost use Rattle.gd_dump_reading.specs.Readers.{left_by, taken_by};
ghost use Rattle.gd_dump_reading.specs.Told.{Feeds, NoneEnds, Repeats};

use gd_base::{Failed, Source};
use gd_dump_reading::{DumpError, DumpKind, Fed, Item, Machine, Reader};
use std::alloc::Global;

/// The most bytes of an input that are read, and the size of a page.
const MOST: u64 = 1 << 32;

const PAGE: usize = 4096;

/// Why there is no next item.
#[derive(Clone, Copy, Debug, PartialEq, Eq)]
pub enum Stop {
    /// The dump is refused, at a place.
    Refused(DumpKind, u64),
    InputFailed,
    /// 2^32 bytes of the input were taken, and the dump isn't at its end.
    TooLong,
    Starved,
}

/// A dump that is read from a source: the reader, a page of what was read, and of that page what the reader has not
/// taken.
#[derive(Drop)]
pub struct Incoming<M: Machine> {
    reader: Reader<M>,
    page: [u8; PAGE],
    at: usize,
    end: usize,
    // How many bytes were read, and whether the source has ended.
    read: u64,
    ended: bool,
    ghost within: { at ≤ end },
    ghost inside: { end ≤ 4096 },
    ghost few: { read ≤ 2 ^ 32 },
    ghost taken: { taken_by M.taken reader + (end - at) ≤ read },
    ghost exact: { reader.stop ≡ None → taken_by M.taken reader + (end - at) ≡ read },
}

// Reads into the front of a page.
fn read_front<S: Source>(input: &mut S, page: &mut [u8], room: usize) -> Result<usize, Failed>
    requires { room ≤ length page.old }
    ensures bytes { Reads (S.left input.old) (S.left input.new) result (take room page.new) }
    ensures cause { HasCause (S.fault_count input.old) (S.fault_count input.new) result }
{
    input.read(&mut page[..room])
}

// Feeds what stands in a page between two places.
fn feed_window<M: Machine>(
    reader: &mut Reader<M>,
    page: &[u8],
    at: usize,
    end: usize,
) -> Result<Fed, DumpError>
    requires within { (at ≤ end) × (end ≤ length page.now) }
    requires room { taken_by M.taken reader.old + (end - at) ≤ 2 ^ 63 - 1 }
    ensures feeds { Feeds (left_by M.left reader.old) (left_by M.left reader.new) (taken_by M.taken reader.old) (taken_by M.taken reader.new) (take (end - at) (drop at page.now)) result }
    ensures whole { IfOk result (λ fed. fed.item ≡ None → fed.taken ≡ end - at) }
    ensures within { IfOk result (λ fed. fed.taken ≤ end - at) }
    ensures none { IfOk result (λ fed. fed.item ≡ None → NoneEnds (left_by M.left reader.new) (taken_by M.taken reader.new)) }
    ensures again { Repeats reader.old.stop reader.new.stop result }
    ensures stopped { IfErr result (λ e. taken_by M.taken reader.new ≤ taken_by M.taken reader.old) }
{
    reader.feed(&page[at..end])
}

impl<M: Machine> Incoming<M> {
    ghost use Rattle.gd_load.specs.Items.{EndsWith, FeedsPage, Counts, FinishesPage, Gives, GivesRead, IsLeft, ReadOn, StopsFor, incoming_left, pages_left, waiting};

    /// Nothing was read.
    pub fn new(alloc: Global) -> Incoming<M>
        ensures left { (bytes : List ℕ) → incoming_left result bytes ≡ M.reads bytes }
        ensures ended { result.ended ≡ false }
        ensures all { result.at ≡ result.end }
        ensures read { result.read ≡ 0 }
    {
        Incoming {
            reader: Reader::new(alloc),
            page: [0; PAGE],
            at: 0,
            end: 0,
            read: 0,
            ended: false,
        }
    }

    /// What was read, of which nothing was taken, goes to another reader.
    pub(crate) fn with_machine<N: Machine>(self, alloc: Global) -> Incoming<N>
        requires { self.read ≡ self.end - self.at }
        ensures left { (rest : List ℕ) → incoming_left result rest ≡ N.reads (waiting self ++ rest) }
        ensures same { (result.read ≡ self.read) × (result.ended ≡ self.ended) }
    {
        Incoming {
            reader: Reader::new(alloc),
            page: self.page,
            at: self.at,
            end: self.end,
            read: self.read,
            ended: self.ended,
        }
    }

    /// Does what was read and not taken begin with these bytes?
    pub(crate) fn begins_with(&self, front: &[u8]) -> bool
        ensures { result ≡ starts_with eqb (waiting self.now) front.now }
    {
        self.page[self.at..self.end].starts_with(front)
    }

    /// How many bytes the reader has taken, which has not refused the dump.
    pub(crate) fn taken(&self) -> u64
        requires { self.now.reader.stop ≡ None }
        ensures { result ≡ taken_by M.taken self.now.reader }
    {
        self.read - (self.end - self.at) as u64
    }

    /// Has the source ended?
    pub fn is_ended(&self) -> bool
        ensures { result ≡ self.now.ended }
    {
        self.ended
    }

    /// Reads on, when all that was read was taken and the source hasn't ended: at most a page, and at most 2^32 bytes in
    /// all. The refusals are `InputFailed` and `TooLong`.
    pub fn turn_page<S: Source>(&mut self, input: &mut S) -> Result<(), Stop>
        requires all { self.old.at ≡ self.old.end }
        requires going { self.old.ended ≡ false }
        ensures front { S.left input.old ≡ option_map (λ rest. waiting self.new ++ rest) (S.left input.new) }
        ensures same { (bytes : List ℕ) → S.left input.old ≡ Some bytes → IsLeft (S.left input.new) (λ rest. incoming_left self.old bytes ≡ incoming_left self.new rest) }
        ensures ended { OnOk result (EndsWith self.new.ended (S.left input.new)) }
        ensures stays { OnErr result ((self.new.at ≡ self.new.end) × (self.new.ended ≡ false)) }
        ensures cause { IfErr result (λ stop. StopsFor stop (S.fault_count input.old) (S.fault_count input.new) self.new.read) }
        ensures kind { IfErr result (λ stop. (stop ≡ Stop.InputFailed) ⊎ (stop ≡ Stop.TooLong)) }
        ensures answered { OnOk result (S.fault_count input.new ≡ S.fault_count input.old) }
        ensures reader { self.new.reader ≡ self.old.reader }
        ensures read { OnOk result (self.new.read ≡ self.old.read + (self.new.end - self.new.at)) }
        ensures unread { OnErr result (self.new.read ≡ self.old.read) }
        ensures size { length (waiting self.new) ≡ self.new.end - self.new.at }
        ensures last { OnOk result (self.new.at ≡ self.new.end → self.new.ended ≡ true) }
        ensures few { self.new.read ≤ 2 ^ 32 }
        ensures less { OnOk result (pages_left self.new.read self.new.ended < pages_left self.old.read self.old.ended) }
    {
        if self.read == MOST {
            return Err(Stop::TooLong);
        }
        let room = PAGE.min((MOST - self.read) as usize);
        match read_front(input, &mut self.page, room) {
            Ok(count) => {
                self.at = 0;
                self.end = count;
                self.read += count as u64;
                self.ended = count == 0;
                Ok(())
            }
            Err(_) => Err(Stop::InputFailed),
        }
    }

    // Feeds what the page still has.
    fn feed_page(&mut self) -> Result<Option<Item>, Stop>
        ensures feeds { FeedsPage self.old self.new result }
        ensures rest { (self.new.read ≡ self.old.read) × (self.new.ended ≡ self.old.ended) }
        ensures going { OnOk result (self.new.reader.stop ≡ None) }
    {
        match feed_window(&mut self.reader, &self.page, self.at, self.end) {
            Ok(fed) => {
                self.at += fed.taken;
                Ok(fed.item)
            }
            Err(DumpError::Bad { kind, place }) => Err(Stop::Refused(kind, place)),
            Err(DumpError::OutOfMemory) => Err(Stop::Starved),
        }
    }

    // The input has ended, and all of it was taken.
    fn finish(&mut self) -> Result<Option<Item>, Stop>
        requires all { self.old.at ≡ self.old.end }
        ensures finishes { FinishesPage self.old self.new result }
        ensures rest { (self.new.at ≡ self.new.end) × (self.new.ended ≡ self.old.ended) × (self.new.read ≡ self.old.read) }
        ensures going { OnOk result (self.new.reader.stop ≡ None) }
    {
        match self.reader.finish() {
            Ok(item) => Ok(item),
            Err(DumpError::Bad { kind, place }) => Err(Stop::Refused(kind, place)),
            Err(DumpError::OutOfMemory) => Err(Stop::Starved),
        }
    }

    /// The next item of what was read. Without one all that was read was taken; where the source has ended, the dump has.
    pub fn next_read(&mut self) -> Result<Option<Item>, Stop>
        ensures gives { GivesRead self.old self.new result }
        ensures rest { (self.new.read ≡ self.old.read) × (self.new.ended ≡ self.old.ended) }
        ensures going { OnOk result (self.new.reader.stop ≡ None) }
        ensures all { IfOk result (λ item. item ≡ None → self.new.ended ≡ false → taken_by M.taken self.new.reader ≡ self.new.read) }
    {
        if let Some(item) = self.feed_page()? {
            return Ok(Some(item));
        }
        if self.ended {
            return self.finish();
        }
        Ok(None)
    }

    /// The next item of the dump, or none behind its end. No more is read than is needed for it, and at most 2^32 bytes in
    /// all.
    pub fn next<S: Source>(&mut self, input: &mut S) -> Result<Option<Item>, Stop>
        requires { EndsWith self.old.ended (S.left input.old) }
        ensures gives { ReadOn (S.left input.old) (S.left input.new) (λ bytes. Counts self.old self.new bytes × Gives self.old self.new bytes result) }
        ensures few { self.new.read ≤ 2 ^ 32 }
        ensures going { OnOk result (self.new.reader.stop ≡ None) }
        ensures ended { EndsWith self.new.ended (S.left input.new) }
        ensures cause { IfErr result (λ stop. StopsFor stop (S.fault_count input.old) (S.fault_count input.new) self.new.read) }
        ensures answered { OnOk result (S.fault_count input.new ≡ S.fault_count input.old) }
    {
        loop {
            match self.feed_page() {
                Ok(Some(item)) => return Ok(Some(item)),
                Ok(None) => {}
                Err(stop) => return Err(stop),
            }
            if self.ended {
                return self.finish();
            }
            if let Err(stop) = self.turn_page(input) {
                return Err(stop);
            }
        }
    }
}
