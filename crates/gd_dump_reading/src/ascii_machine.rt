//! The steps of the reader of ASCII dumps.

ghost use Rattle.std.specs.Prelude.{◌==◌, ◌&&◌, MatchOption, drop, ◌≡◌, ◌≢◌, ◌+◌, ◌-◌, ◌^◌, ◌≤◌, ◌<◌, ℕ, List, slice_index, [], Bool, false, true, None, Ok, codes, eqb, length, vec_capacity, vec_len, IfOk};
ghost use Rattle.std.specs.List.{starts_with};
ghost use Rattle.arrayvec.specs.ArrayVec.{array_vec_len};
ghost use Rattle.gd_dump_reading.specs.AsciiRooms.{counted, line_room, names_room};

use crate::items::{DumpHead, DumpKind, Fed, Item, Refusal};
use crate::live::{Shown, show_line};
use crate::machine::Machine;
use crate::names::Names;
use crate::numbers::{is_value, numeric, size_after};
use crate::room::append;
use crate::text::Text;
use gd_base::{Datum, OutOfMemory};
use memchr::memchr;
use std::alloc::Global;
use std::mem::replace;

/// The most bytes of a line that are put together: one of 65,536 bytes, with a carriage return, and one more.
const LINE: usize = 65_538;

/// What of a dump is read.
#[derive(Clone, Copy, Debug, PartialEq, Eq)]
pub enum AsciiPhase {
    Head,
    /// Between data.
    Data,
    /// The text of a datum.
    Datum,
    /// Behind the count.
    Counted,
    Ended,
}

/// The bytes of a line that have come, with the line's place in the input, and what the lines before it have said.
///
/// Of a comment two bytes are kept, and of a datum's text its bytes.
#[derive(Debug, Drop)]
pub struct AsciiMachine {
    alloc: Global,
    phase: AsciiPhase,
    names: Names,
    // Room for a value of the head.
    value: Vec<u8>,
    // The pairs so far, and a key that waits for its value.
    count: u64,
    waits: bool,
    key: Vec<u8>,
    // The datum being read, and whether some of a line of its text has come.
    text: Text,
    inside: bool,
    line: Vec<u8>,
    place: u64,
    ghost in_range: { place + vec_len line ≤ 2 ^ 63 - 1 },
    ghost short: { vec_len line ≤ 65537 },
    ghost no_line: { vec_len line ≤ line_room phase (vec_len line) },
    ghost names_fit: { vec_len line ≤ names_room phase (vec_capacity names.file) (vec_capacity value) (vec_len line) },
    ghost few: { counted phase count ≤ place },
    ghost file: { vec_len names.file ≤ 65537 },
    ghost empty: { vec_len value ≡ 0 },
    ghost key_small: { vec_len key ≤ 2 ^ 31 },
}

impl AsciiMachine {
    ghost use Rattle.gd_dump_reading.specs.AsciiHeld.{HasRoom, ascii_kept};
    ghost use Rattle.gd_dump_reading.specs.AsciiItems.{is_whole, key_size, size_of};
    ghost use Rattle.gd_dump_reading.specs.AsciiLeft.{ascii_left, ascii_taken, key_of};
    ghost use Rattle.gd_dump_reading.specs.AsciiSteps.{Follows, KeepsRoom, SameBut};
    ghost use Rattle.gd_dump_reading.specs.Lines.{NoFeed};
    ghost use Rattle.gd_dump_reading.specs.Numbers.{is_number, value_of};
    ghost use Rattle.gd_dump_reading.specs.Said.{IsRoomy, named_in};
    ghost use Rattle.gd_dump_reading.specs.TextLeft.{text_left};
    ghost use Rattle.gd_dump_reading.specs.Told.{Ends, GoesOn, Steps, nothing, refused};

    // The next line begins.
    fn next_line(&mut self, ended: bool)
        requires { self.old.place + size_of (record { text = self.old.line.items; ended = ended }) ≤ 2 ^ 63 - 1 }
        ensures line { self.new.line.items ≡ [] }
        ensures inside { self.new.inside ≡ false }
        ensures place { self.new.place ≡ self.old.place + size_of (record { text = self.old.line.items; ended = ended }) }
        ensures rest { SameBut self.old self.new }
        ensures room { (n : ℕ) → HasRoom self.old n → HasRoom self.new n }
    {
        self.place += self.line.len() as u64 + u64::from(ended);
        self.line.clear();
        self.inside = false;
    }

    fn bad<T>(&self, kind: DumpKind) -> Result<T, Refusal>
        ensures { result ≡ Err (record { kind = kind; place = self.now.place }) }
    {
        Err(Refusal {
            kind,
            place: self.place,
        })
    }

    // A parameter line of the head.
    fn params_line(&mut self, ended: bool) -> Result<Option<Item>, Refusal>
        requires phase { self.old.phase ≡ AsciiPhase.Head }
        requires param { starts_with eqb self.old.line.items (codes "#:") ≡ true }
        requires starts { starts_with eqb self.old.line.items (codes "#") ≡ true }
        requires fits { self.old.place + size_of (record { text = self.old.line.items; ended = ended }) ≤ 2 ^ 63 - 1 }
        ensures follows { Follows self.old self.new ended (self.old.place + size_of (record { text = self.old.line.items; ended = ended })) result }
        ensures room { KeepsRoom self.old self.new }
    {
        match self.names.say_line(&mut self.value, &self.line, ended) {
            None => {
                self.next_line(ended);
                Ok(None)
            }
            Some(kind) => self.bad(kind),
        }
    }

    // The last line of the head.
    fn end_of_head(&mut self, ended: bool) -> Result<Option<Item>, Refusal>
        requires phase { self.old.phase ≡ AsciiPhase.Head }
        requires end { self.old.line.items ≡ codes "# End of header" }
        requires starts { starts_with eqb self.old.line.items (codes "#") ≡ true }
        requires fits { self.old.place + size_of (record { text = self.old.line.items; ended = ended }) ≤ 2 ^ 63 - 1 }
        ensures follows { Follows self.old self.new ended (self.old.place + size_of (record { text = self.old.line.items; ended = ended })) result }
        ensures some { IfOk result (λ item. item ≢ None) }
    {
        if !self.names.version {
            return self.bad(DumpKind::Version);
        }
        self.next_line(ended);
        self.phase = AsciiPhase::Data;
        self.count = 0;
        self.waits = false;
        let file = replace(&mut self.names.file, Vec::new(self.alloc));
        let head = DumpHead {
            format: self.names.format,
            file: self.names.named.then_some(Datum::from(file)),
        };
        Ok(Some(Item::Head(head)))
    }

    fn line_of_head(&mut self, ended: bool) -> Result<Option<Item>, Refusal>
        requires phase { self.old.phase ≡ AsciiPhase.Head }
        requires starts { starts_with eqb self.old.line.items (codes "#") ≡ true }
        requires fits { self.old.place + size_of (record { text = self.old.line.items; ended = ended }) ≤ 2 ^ 63 - 1 }
        ensures follows { Follows self.old self.new ended (self.old.place + size_of (record { text = self.old.line.items; ended = ended })) result }
        ensures room { IfOk result (λ item. item ≡ None → KeepsRoom self.old self.new) }
    {
        if self.line.starts_with(b"#:") {
            self.params_line(ended)
        } else if self.line.as_slice() == b"# End of header".as_slice() {
            self.end_of_head(ended)
        } else {
            self.next_line(ended);
            Ok(None)
        }
    }

    // A line of its own behind the count.
    fn line_of_end(&mut self, ended: bool) -> Result<Option<Item>, Refusal>
        requires phase { self.old.phase ≡ AsciiPhase.Counted }
        requires starts { starts_with eqb self.old.line.items (codes "#") ≡ true }
        requires fits { self.old.place + size_of (record { text = self.old.line.items; ended = ended }) ≤ 2 ^ 63 - 1 }
        ensures follows { Follows self.old self.new ended (self.old.place + size_of (record { text = self.old.line.items; ended = ended })) result }
        ensures room { KeepsRoom self.old self.new }
    {
        if self.line.as_slice() == b"# End of data".as_slice() {
            self.next_line(ended);
            self.phase = AsciiPhase::Ended;
            Ok(Some(Item::End))
        } else if self.line.starts_with(b"#:") {
            self.bad(DumpKind::Parameter)
        } else {
            self.next_line(ended);
            Ok(None)
        }
    }

    fn key_len(&self) -> usize
        ensures { result ≡ key_size (key_of self.now.waits self.now.key.items) }
    {
        if self.waits { self.key.len() } else { 0 }
    }

    fn may_announce(&self) -> bool
        requires { 6 ≤ length self.now.line.items }
        ensures { result ≡ is_number 10 (drop 6 self.now.line.items) }
    {
        numeric(10, &self.line[6..])
    }

    // The size that the line announces, unless it makes the pair too large.
    fn announced(&self) -> Option<u64>
        requires { 6 ≤ length self.now.line.items }
        ensures { MatchOption result (2 ^ 30 < key_size (key_of self.now.waits self.now.key.items) + value_of (drop 6 self.now.line.items))
            (λ n. (n ≡ value_of (drop 6 self.now.line.items)) × (key_size (key_of self.now.waits self.now.key.items) + n ≤ 2 ^ 30)) }
    {
        size_after(self.key_len(), &self.line[6..])
    }

    // A line that announces a datum.
    fn len_line(&mut self, ended: bool) -> Result<Option<Item>, Refusal>
        requires phase { self.old.phase ≡ AsciiPhase.Data }
        requires len { starts_with eqb self.old.line.items (codes "#:len=") ≡ true }
        requires starts { starts_with eqb self.old.line.items (codes "#") ≡ true }
        requires fits { self.old.place + size_of (record { text = self.old.line.items; ended = ended }) ≤ 2 ^ 63 - 1 }
        ensures follows { Follows self.old self.new ended (self.old.place + size_of (record { text = self.old.line.items; ended = ended })) result }
        ensures room { KeepsRoom self.old self.new }
    {
        if !self.may_announce() {
            return self.bad(DumpKind::Parameter);
        }
        let Some(size) = self.announced() else {
            return self.bad(DumpKind::TooLarge);
        };
        self.text.start(size, self.place);
        self.next_line(ended);
        self.phase = AsciiPhase::Datum;
        Ok(None)
    }

    fn may_count(&self) -> bool
        requires { 8 ≤ length self.now.line.items }
        ensures { result ≡ (is_number 20 (drop 8 self.now.line.items) && is_whole (key_of self.now.waits self.now.key.items)) }
    {
        numeric(20, &self.line[8..]) && !self.waits
    }

    fn is_count(&self) -> bool
        requires { 8 ≤ length self.now.line.items }
        ensures { result ≡ (value_of (drop 8 self.now.line.items) == self.now.count) }
    {
        is_value(&self.line[8..], self.count)
    }

    // The line of the count.
    fn count_line(&mut self, ended: bool) -> Result<Option<Item>, Refusal>
        requires phase { self.old.phase ≡ AsciiPhase.Data }
        requires other { starts_with eqb self.old.line.items (codes "#:len=") ≡ false }
        requires count { starts_with eqb self.old.line.items (codes "#:count=") ≡ true }
        requires starts { starts_with eqb self.old.line.items (codes "#") ≡ true }
        requires fits { self.old.place + size_of (record { text = self.old.line.items; ended = ended }) ≤ 2 ^ 63 - 1 }
        ensures follows { Follows self.old self.new ended (self.old.place + size_of (record { text = self.old.line.items; ended = ended })) result }
        ensures room { KeepsRoom self.old self.new }
    {
        if !self.may_count() {
            return self.bad(DumpKind::Parameter);
        }
        if !self.is_count() {
            return self.bad(DumpKind::Count);
        }
        self.next_line(ended);
        self.phase = AsciiPhase::Counted;
        Ok(None)
    }

    fn line_of_data(&mut self, ended: bool) -> Result<Option<Item>, Refusal>
        requires phase { self.old.phase ≡ AsciiPhase.Data }
        requires starts { starts_with eqb self.old.line.items (codes "#") ≡ true }
        requires fits { self.old.place + size_of (record { text = self.old.line.items; ended = ended }) ≤ 2 ^ 63 - 1 }
        ensures follows { Follows self.old self.new ended (self.old.place + size_of (record { text = self.old.line.items; ended = ended })) result }
        ensures room { KeepsRoom self.old self.new }
    {
        if self.line.starts_with(b"#:len=") {
            self.len_line(ended)
        } else if self.line.starts_with(b"#:count=") {
            self.count_line(ended)
        } else if self.line.starts_with(b"#:") {
            self.bad(DumpKind::Parameter)
        } else if self.line.as_slice() == b"# End of data".as_slice() {
            self.bad(DumpKind::Count)
        } else {
            self.next_line(ended);
            Ok(None)
        }
    }

    // The line that is held is at its end.
    fn line_done(&mut self, ended: bool) -> Result<Option<Item>, Refusal>
        requires datum { self.old.phase ≢ AsciiPhase.Datum }
        requires going { self.old.phase ≢ AsciiPhase.Ended }
        requires fits { self.old.place + size_of (record { text = self.old.line.items; ended = ended }) ≤ 2 ^ 63 - 1 }
        ensures follows { Follows self.old self.new ended (self.old.place + size_of (record { text = self.old.line.items; ended = ended })) result }
        ensures room { IfOk result (λ item. item ≡ None → KeepsRoom self.old self.new) }
    {
        if !self.line.starts_with(b"#") {
            let first = self.phase == AsciiPhase::Head && self.place == 0;
            return self.bad(if first {
                DumpKind::Version
            } else {
                DumpKind::Parameter
            });
        }
        match self.phase {
            AsciiPhase::Head => self.line_of_head(ended),
            AsciiPhase::Data => self.line_of_data(ended),
            _ => self.line_of_end(ended),
        }
    }

    // A line feed ends the line that is held.
    fn feed_line(&mut self, piece: &[u8]) -> Result<Fed, Refusal>
        requires feed { (0 < length piece.now) × (slice_index piece.now 0 ≡ 10) }
        requires datum { self.old.phase ≢ AsciiPhase.Datum }
        requires going { self.old.phase ≢ AsciiPhase.Ended }
        requires fits { ascii_taken self.old + length piece.now ≤ 2 ^ 63 - 1 }
        requires room { HasRoom self.old (length piece.now) }
        ensures steps { Steps (ascii_left self.old) (ascii_left self.new) (ascii_taken self.old) (ascii_taken self.new) piece.now result }
        ensures goes_on { GoesOn piece.now result }
        ensures room { IfOk result (λ fed. fed.item ≡ None → HasRoom self.new (length piece.now - fed.taken)) }
    {
        match self.line_done(true) {
            Ok(item) => Ok(Fed { taken: 1, item }),
            Err(stop) => Err(stop),
        }
    }

    // More of the line, in which no line feed stands. Of a comment two bytes are kept.
    fn part_of_line(&mut self, piece: &[u8], count: usize) -> Result<Fed, Refusal>
        requires some { (0 < count) × (count ≤ length piece.now) }
        requires within { NoFeed piece.now count }
        requires datum { self.old.phase ≢ AsciiPhase.Datum }
        requires going { self.old.phase ≢ AsciiPhase.Ended }
        requires fits { ascii_taken self.old + length piece.now ≤ 2 ^ 63 - 1 }
        requires room { HasRoom self.old (length piece.now) }
        ensures steps { Steps (ascii_left self.old) (ascii_left self.new) (ascii_taken self.old) (ascii_taken self.new) piece.now result }
        ensures goes_on { GoesOn piece.now result }
        ensures room { IfOk result (λ fed. fed.item ≡ None → HasRoom self.new (length piece.now - fed.taken)) }
    {
        if self.line.as_slice() == b"##".as_slice() {
            self.place += count as u64;
            return Ok(Fed {
                taken: count,
                item: None,
            });
        }
        let taken = count.min(LINE - self.line.len());
        append(&mut self.line, &piece[..taken]);
        match show_line(self.phase, self.waits, self.place, &self.line) {
            Shown::Bad(kind) => {
                self.line.clear();
                Err(Refusal {
                    kind,
                    place: self.place,
                })
            }
            Shown::Comment => {
                self.place += self.line.len() as u64 - 2;
                self.line.clear();
                append(&mut self.line, b"##");
                Ok(Fed { taken, item: None })
            }
            Shown::Open => Ok(Fed { taken, item: None }),
        }
    }

    fn line_step(&mut self, piece: &[u8]) -> Result<Fed, Refusal>
        requires datum { self.old.phase ≢ AsciiPhase.Datum }
        requires going { self.old.phase ≢ AsciiPhase.Ended }
        requires fits { ascii_taken self.old + length piece.now ≤ 2 ^ 63 - 1 }
        requires room { HasRoom self.old (length piece.now) }
        ensures steps { Steps (ascii_left self.old) (ascii_left self.new) (ascii_taken self.old) (ascii_taken self.new) piece.now result }
        ensures goes_on { GoesOn piece.now result }
        ensures room { IfOk result (λ fed. fed.item ≡ None → HasRoom self.new (length piece.now - fed.taken)) }
    {
        match memchr(b'\n', piece) {
            Some(0) => self.feed_line(piece),
            Some(count) => self.part_of_line(piece, count),
            None if piece.is_empty() => Ok(Fed {
                taken: 0,
                item: None,
            }),
            None => self.part_of_line(piece, piece.len()),
        }
    }

    // A line feed in a datum's text.
    fn feed_text(&mut self, piece: &[u8]) -> Result<Fed, Refusal>
        requires feed { (0 < length piece.now) × (slice_index piece.now 0 ≡ 10) }
        requires datum { self.old.phase ≡ AsciiPhase.Datum }
        requires fits { ascii_taken self.old + length piece.now ≤ 2 ^ 63 - 1 }
        requires room { HasRoom self.old (length piece.now) }
        ensures steps { Steps (ascii_left self.old) (ascii_left self.new) (ascii_taken self.old) (ascii_taken self.new) piece.now result }
        ensures goes_on { GoesOn piece.now result }
        ensures room { IfOk result (λ fed. fed.item ≡ None → HasRoom self.new (length piece.now - fed.taken)) }
    {
        self.inside = false;
        self.place += 1;
        Ok(Fed {
            taken: 1,
            item: None,
        })
    }

    // More of a line of a datum's text, in which no line feed stands.
    fn part_of_text(&mut self, piece: &[u8], count: usize) -> Result<Fed, Refusal>
        requires some { (0 < count) × (count ≤ length piece.now) }
        requires within { NoFeed piece.now count }
        requires datum { self.old.phase ≡ AsciiPhase.Datum }
        requires text { self.old.inside ≡ false → starts_with eqb piece.now (codes "#") ≡ false }
        requires fits { ascii_taken self.old + length piece.now ≤ 2 ^ 63 - 1 }
        requires room { HasRoom self.old (length piece.now) }
        ensures steps { Steps (ascii_left self.old) (ascii_left self.new) (ascii_taken self.old) (ascii_taken self.new) piece.now result }
        ensures goes_on { GoesOn piece.now result }
        ensures room { IfOk result (λ fed. fed.item ≡ None → HasRoom self.new (length piece.now - fed.taken)) }
    {
        if self.text.is_over(count) {
            return Err(self.text.too_long());
        }
        let taken = self.text.take(&piece[..count]);
        self.inside = true;
        self.place += taken as u64;
        Ok(Fed { taken, item: None })
    }

    // The key waits for its value.
    fn keep_key(&mut self)
        requires datum { self.old.phase ≡ AsciiPhase.Datum }
        requires first { self.old.waits ≡ false }
        requires line { vec_len self.old.line ≡ 0 }
        requires room { (n : ℕ) × HasRoom self.old n }
        requires fits { self.old.place + 1 ≤ 2 ^ 63 - 1 }
        ensures key { (self.new.waits ≡ true) × (self.new.key.items ≡ self.old.text.bytes.items) }
        ensures line { self.new.line.items ≡ codes "#" }
        ensures rest { (self.new.phase ≡ AsciiPhase.Data) × (self.new.place ≡ self.old.place) × (self.new.count ≡ self.old.count) }
        ensures room { (n : ℕ) → HasRoom self.old n → HasRoom self.new n }
    {
        let room = replace(&mut self.key, Vec::new(self.alloc));
        self.key = self.text.give(room);
        self.waits = true;
        append(&mut self.line, b"#");
        self.phase = AsciiPhase::Data;
    }

    // The pair of the key that waits and the datum that was read.
    fn give_pair(&mut self) -> Item
        requires datum { self.old.phase ≡ AsciiPhase.Datum }
        requires line { vec_len self.old.line ≡ 0 }
        requires room { 1 ≤ vec_capacity self.old.line }
        requires fits { self.old.place + 1 ≤ 2 ^ 63 - 1 }
        ensures pair { result ≡ Item.Pair self.old.key.items self.old.text.bytes.items }
        ensures line { self.new.line.items ≡ codes "#" }
        ensures rest { (self.new.phase ≡ AsciiPhase.Data) × (self.new.place ≡ self.old.place) × (self.new.count ≡ self.old.count + 1) × (self.new.waits ≡ false) }
    {
        let key = replace(&mut self.key, Vec::new(self.alloc));
        let value = self.text.give(Vec::new(self.alloc));
        self.waits = false;
        self.count += 1;
        append(&mut self.line, b"#");
        self.phase = AsciiPhase::Data;
        Item::Pair(Datum::from(key), Datum::from(value))
    }

    // The '#' behind a datum's text.
    fn close_datum(&mut self, piece: &[u8]) -> Result<Fed, Refusal>
        requires hash { (0 < length piece.now) × (slice_index piece.now 0 ≡ 35) }
        requires datum { self.old.phase ≡ AsciiPhase.Datum }
        requires begins { self.old.inside ≡ false }
        requires fits { ascii_taken self.old + length piece.now ≤ 2 ^ 63 - 1 }
        requires room { HasRoom self.old (length piece.now) }
        ensures steps { Steps (ascii_left self.old) (ascii_left self.new) (ascii_taken self.old) (ascii_taken self.new) piece.now result }
        ensures goes_on { GoesOn piece.now result }
        ensures room { IfOk result (λ fed. fed.item ≡ None → HasRoom self.new (length piece.now - fed.taken)) }
    {
        if let Some(stop) = self.text.refusal() {
            return Err(stop);
        }
        if self.waits {
            let pair = self.give_pair();
            return Ok(Fed {
                taken: 1,
                item: Some(pair),
            });
        }
        self.keep_key();
        Ok(Fed {
            taken: 1,
            item: None,
        })
    }

    fn datum_step(&mut self, piece: &[u8]) -> Result<Fed, Refusal>
        requires datum { self.old.phase ≡ AsciiPhase.Datum }
        requires fits { ascii_taken self.old + length piece.now ≤ 2 ^ 63 - 1 }
        requires room { HasRoom self.old (length piece.now) }
        ensures steps { Steps (ascii_left self.old) (ascii_left self.new) (ascii_taken self.old) (ascii_taken self.new) piece.now result }
        ensures goes_on { GoesOn piece.now result }
        ensures room { IfOk result (λ fed. fed.item ≡ None → HasRoom self.new (length piece.now - fed.taken)) }
    {
        if !self.inside && piece.starts_with(b"#") {
            return self.close_datum(piece);
        }
        match memchr(b'\n', piece) {
            Some(0) => self.feed_text(piece),
            Some(count) => self.part_of_text(piece, count),
            None if piece.is_empty() => Ok(Fed {
                taken: 0,
                item: None,
            }),
            None => self.part_of_text(piece, piece.len()),
        }
    }

    // Makes room for a line.
    fn make_line_room(&mut self) -> bool
        ensures room { result ≡ true → 65538 ≤ vec_capacity self.new.line }
        ensures line { self.new.line.items ≡ self.old.line.items }
        ensures len { vec_len self.new.line ≡ vec_len self.old.line }
        ensures rest { SameBut self.old self.new }
        ensures place { (self.new.place ≡ self.old.place) × (self.new.inside ≡ self.old.inside) }
    {
        self.line.reserve(LINE - self.line.len()).is_ok()
    }

    // Makes room for a line's values.
    fn make_head_room(&mut self) -> bool
        ensures room { result ≡ true → IsRoomy 65538 (vec_capacity self.new.names.file) (vec_capacity self.new.value) }
        ensures names { named_in self.new.names ≡ named_in self.old.names }
        ensures len { (vec_len self.new.names.file ≡ vec_len self.old.names.file) × (vec_len self.new.value ≡ vec_len self.old.value) }
        ensures line { self.new.line ≡ self.old.line }
        ensures text { self.new.text ≡ self.old.text }
        ensures key { (self.new.key ≡ self.old.key) × (self.new.waits ≡ self.old.waits) }
        ensures rest { (self.new.phase ≡ self.old.phase) × (self.new.count ≡ self.old.count) × (self.new.place ≡ self.old.place) × (self.new.inside ≡ self.old.inside) }
    {
        let more = LINE - self.names.file.len();
        self.names.file.reserve(more).is_ok() && self.value.reserve(LINE).is_ok()
    }

    // Makes room for the bytes of a pair.
    fn make_pair_room(&mut self, more: usize) -> bool
        requires { more < 2 ^ 63 }
        ensures text { result ≡ true → vec_len self.new.text.bytes + array_vec_len self.new.text.quad + more ≤ vec_capacity self.new.text.bytes }
        ensures key { result ≡ true → self.new.waits ≡ false → more ≤ vec_capacity self.new.key }
        ensures left { (chars : List ℕ) (follows : Bool) (end : ℕ) → text_left self.new.text chars follows end ≡ text_left self.old.text chars follows end }
        ensures keys { (self.new.key.items ≡ self.old.key.items) × (self.new.waits ≡ self.old.waits) }
        ensures len { (vec_len self.new.key ≡ vec_len self.old.key) × (vec_len self.new.text.bytes ≡ vec_len self.old.text.bytes) × (self.new.text.quad ≡ self.old.text.quad) }
        ensures line { (self.new.line ≡ self.old.line) × (self.new.names ≡ self.old.names) × (self.new.value ≡ self.old.value) }
        ensures rest { (self.new.phase ≡ self.old.phase) × (self.new.count ≡ self.old.count) × (self.new.place ≡ self.old.place) × (self.new.inside ≡ self.old.inside) }
    {
        if self.text.make_room(more).is_err() {
            return false;
        }
        self.waits || self.key.reserve(more).is_ok()
    }

    // The input ends where a line might begin, in a datum, or after its end.
    fn cut(&self) -> Option<Refusal>
        requires { self.now.line.items ≡ [] }
        ensures { MatchOption result (ascii_left self.now [] ≡ nothing) (λ r. ascii_left self.now [] ≡ refused r.kind r.place) }
    {
        match self.phase {
            AsciiPhase::Ended => None,
            _ => Some(Refusal {
                kind: DumpKind::Truncated,
                place: self.place,
            }),
        }
    }

    // The input ends behind a line without its line feed.
    fn last_line(&mut self) -> Result<Option<Item>, Refusal>
        requires datum { self.old.phase ≢ AsciiPhase.Datum }
        requires going { self.old.phase ≢ AsciiPhase.Ended }
        requires some { 0 < length self.old.line.items }
        ensures { Ends (ascii_left self.old) (ascii_left self.new) (ascii_taken self.old) (ascii_taken self.new) result }
    {
        match self.line_done(false) {
            Ok(Some(item)) => Ok(Some(item)),
            Ok(None) => match self.cut() {
                Some(stop) => Err(stop),
                None => Ok(None),
            },
            Err(stop) => Err(stop),
        }
    }
}

impl Machine for AsciiMachine {
    ghost use Rattle.gd_dump_reading.specs.AsciiItems.{ascii_items};
    ghost use Rattle.gd_dump_reading.specs.AsciiLeft.{ascii_left, ascii_taken};
    ghost use Rattle.gd_dump_reading.specs.AsciiHeld.{HasRoom, ascii_kept, ascii_pair};

    ghost reads = { ascii_items };

    ghost left = { ascii_left };

    ghost taken = { ascii_taken };

    ghost kept = { ascii_kept };

    ghost pair_kept = { ascii_pair };

    ghost has_room = { HasRoom };

    fn new(alloc: Global) -> AsciiMachine {
        AsciiMachine {
            alloc,
            phase: AsciiPhase::Head,
            names: Names::new(alloc),
            value: Vec::new(alloc),
            count: 0,
            waits: false,
            key: Vec::new(alloc),
            text: Text::new(alloc),
            inside: false,
            line: Vec::new(alloc),
            place: 0,
        }
    }

    fn prepare(&mut self, more: usize) -> Result<(), OutOfMemory> {
        if !self.make_line_room() {
            return Err(OutOfMemory);
        }
        if self.phase == AsciiPhase::Head && !self.make_head_room() {
            return Err(OutOfMemory);
        }
        if !self.make_pair_room(more) {
            return Err(OutOfMemory);
        }
        Ok(())
    }

    fn step(&mut self, piece: &[u8]) -> Result<Fed, Refusal> {
        match self.phase {
            AsciiPhase::Datum => self.datum_step(piece),
            AsciiPhase::Ended => {
                self.place += piece.len() as u64;
                Ok(Fed {
                    taken: piece.len(),
                    item: None,
                })
            }
            _ => self.line_step(piece),
        }
    }

    fn end(&mut self) -> Result<Option<Item>, Refusal> {
        if !self.line.is_empty() {
            return self.last_line();
        }
        match self.cut() {
            Some(stop) => Err(stop),
            None => Ok(None),
        }
    }

    fn held(&self) -> u64 {
        let lines = self.line.len() + self.names.file.len() + self.value.len();
        let pair = self.key.len() + self.text.bytes.len();
        lines as u64 + self.text.quad.len() as u64 + pair as u64
    }
}
