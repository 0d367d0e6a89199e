//! Lines from a source, of which one line and one piece are held.

ghost use Rattle.std.specs.Prelude.{◌≡◌, ◌≤◌, ◌<◌, ◌+◌, ◌-◌, ◌^◌, [], IfOk, length, drop, min};
ghost use Rattle.gd_script.specs.Reading.{Gives, IsWithin, LastIs, PartsFront, Refills, TakesFront, reading};

use crate::Ending;
use gd_base::{OutOfMemory, Page, Source};
use memchr::memchr;
use std::alloc::Global;

/// How many bytes an input has at most, and one more.
const TOO_MANY: u64 = 0x1_0000_0000;

/// The lines of a source.
#[derive(Drop)]
pub(crate) struct Lines {
    piece: Page,
    // Where the bytes of the piece begin that are in no line yet.
    at: usize,
    // How many bytes were taken from the source.
    taken: u64,
}

/// What comes next.
#[derive(Drop)]
pub(crate) enum Next {
    /// A line, without its line feed.
    Line(Vec<u8>),
    /// The last line, which has none.
    Last(Vec<u8>),
    End,
}

// Puts the front of some bytes behind a line: up to the first line feed, whose place it answers, or all of them.
fn take_front(rest: &[u8], line: &mut Vec<u8>) -> Result<Option<usize>, OutOfMemory>
    ensures { IfOk result (λ found. TakesFront found rest.now line.old.items line.new.items) }
{
    match memchr(b'\n', rest) {
        Some(n) => match line.extend_from_slice(&rest[..n]) {
            Ok(()) => Ok(Some(n)),
            Err(_) => Err(OutOfMemory),
        },
        None => match line.extend_from_slice(rest) {
            Ok(()) => Ok(None),
            Err(_) => Err(OutOfMemory),
        },
    }
}

// How many bytes of a piece may be taken.
fn room_for(taken: u64) -> usize
    requires { taken ≤ 2 ^ 32 }
    ensures { result ≡ min 4096 (2 ^ 32 - taken) }
{
    let left = TOO_MANY - taken;
    if left < 4096 { left as usize } else { 4096 }
}

impl Lines {
    pub(crate) fn new() -> Lines
        ensures place { result.at ≡ 0 }
        ensures piece { result.piece.items ≡ [] }
        ensures taken { result.taken ≡ 0 }
    {
        Lines {
            piece: Page::new(),
            at: 0,
            taken: 0,
        }
    }

    // Puts what waits behind a line, up to a line feed. Was there one?
    fn part_line(&mut self, line: &mut Vec<u8>) -> Result<bool, OutOfMemory>
        requires within { IsWithin self.old }
        ensures within { IsWithin self.new }
        ensures parts { IfOk result (λ found. PartsFront found (drop self.old.at self.old.piece.items) (drop self.new.at self.new.piece.items) line.old.items line.new.items) }
        ensures taken { self.new.taken ≡ self.old.taken }
    {
        match take_front(&self.piece.as_slice()[self.at..], line) {
            Ok(Some(n)) => {
                self.at += n + 1;
                Ok(true)
            }
            Ok(None) => {
                self.at = self.piece.len();
                Ok(false)
            }
            Err(OutOfMemory) => Err(OutOfMemory),
        }
    }

    // Takes a piece from the source. Were there more bytes?
    fn refill<S: Source>(&mut self, input: &mut S) -> Result<bool, Ending>
        requires within { IsWithin self.old }
        requires empty { drop self.old.at self.old.piece.items ≡ [] }
        ensures within { IsWithin self.new }
        ensures refills { Refills result (reading self.old (S.left input.old) (S.fault_count input.old)) (reading self.new (S.left input.new) (S.fault_count input.new)) }
    {
        let room = room_for(self.taken);
        if room == 0 {
            return Err(Ending::TooLong);
        }
        let mut bytes = [0; 4096];
        let Ok(n) = input.read(&mut bytes[..room]) else {
            return Err(Ending::InputFailed);
        };
        self.keep(&bytes[..n]);
        Ok(n > 0)
    }

    // Keeps a piece that was taken.
    fn keep(&mut self, bytes: &[u8])
        requires few { length bytes.now ≤ 4096 }
        requires room { length bytes.now ≤ 2 ^ 32 - self.old.taken }
        ensures place { self.new.at ≡ 0 }
        ensures piece { self.new.piece.items ≡ bytes.now }
        ensures taken { self.new.taken ≡ self.old.taken + length bytes.now }
    {
        self.piece.clear();
        match self.piece.try_extend_from_slice(bytes) {
            Ok(()) => {}
            Err(_) => unreachable!(),
        }
        self.at = 0;
        self.taken += bytes.len() as u64;
    }

    /// The next line.
    pub(crate) fn next<S: Source>(&mut self, alloc: Global, input: &mut S) -> Result<Next, Ending>
        requires within { IsWithin self.old }
        ensures within { IsWithin self.new }
        ensures gives { Gives result (reading self.old (S.left input.old) (S.fault_count input.old)) (reading self.new (S.left input.new) (S.fault_count input.new)) }
    {
        let mut line = Vec::new(alloc);
        'pieces: loop {
            let Ok(found) = self.part_line(&mut line) else {
                return Err(Ending::Starved);
            };
            if found {
                return Ok(Next::Line(line));
            }
            match self.refill(input) {
                Ok(true) => {}
                Ok(false) => return Ok(last_of(line)),
                Err(ending) => return Err(ending),
            }
        }
    }
}

// The last line, where it has bytes.
fn last_of(line: Vec<u8>) -> Next
    ensures { LastIs result line.items }
{
    if line.is_empty() {
        Next::End
    } else {
        Next::Last(line)
    }
}
