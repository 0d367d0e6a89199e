//! The text of one datum of an ASCII dump, decoded as it comes.

ghost use Rattle.std.specs.Prelude.{◌≡◌, ℕ, ◌+◌, ◌-◌, ◌^◌, ◌<◌, ◌≤◌, ◌%◌, ◌++◌, ◌∷◌, List, [], Bool, true, false, None, Ok, Err, MatchOption, OnOk, length, take, vec_len, vec_capacity};
ghost use Rattle.base64.specs.GeneralPurpose.{IsBytes};
ghost use Rattle.arrayvec.specs.ArrayVec.{array_vec_len};
ghost use Rattle.gd_dump_reading.specs.AsciiItems.{datum_in, text_size};
ghost use Rattle.gd_dump_reading.specs.Base64.{base64_text, strict_bytes};

use crate::items::{DumpKind, Refusal};
use crate::room::append;
use arrayvec::ArrayVec;
use base64::engine::general_purpose::STANDARD;
use gd_base::OutOfMemory;
use std::alloc::Global;
use std::mem::replace;

/// The most characters that are decoded at once: a line.
const LINE: usize = 76;

/// What of a datum's text has come: the bytes that it stands for, and up to three characters behind them. A text that is
/// no base64 is only counted from there on.
#[derive(Debug, Drop)]
pub struct Text {
    /// The size that was announced, and the place of that line.
    size: u64,
    at: u64,
    /// The number of characters.
    len: u64,
    bad: bool,
    pub bytes: Vec<u8>,
    pub quad: ArrayVec<u8, 4>,
    ghost counted: { bad ≡ false → len ≡ length (base64_text bytes.items) + length quad.items },
    ghost short: { len ≤ text_size size },
    ghost few: { array_vec_len quad ≤ 3 },
    ghost fewer: { vec_len bytes + array_vec_len quad ≤ len },
    ghost small: { size ≤ 2 ^ 30 },
}

// How many bytes they are.
fn size_of(bytes: &[u8]) -> usize
    ensures size { result ≡ length bytes.now }
    ensures bytes { IsBytes bytes.now }
{
    bytes.len()
}

// Did a text end in padding, so that it stands for bytes that are not whole groups of three?
fn is_padded(bytes: &[u8]) -> bool
    ensures none { result ≡ true → (more : List ℕ) → 0 < length more → strict_bytes (base64_text bytes.now ++ more) ≡ None }
    ensures whole { result ≡ false → length bytes.now % 3 ≡ 0 }
{
    bytes.len() % 3 != 0
}

// Decodes whole groups of four characters behind bytes, unless the text is no base64 then.
fn decode(bytes: &mut Vec<u8>, chars: &[u8]) -> bool
    requires some { 0 < length chars.now }
    requires groups { length chars.now % 4 ≡ 0 }
    requires line { length chars.now ≤ 76 }
    requires room { vec_len bytes.old + length chars.now ≤ vec_capacity bytes.old }
    ensures good { result ≡ true → base64_text bytes.new.items ≡ base64_text bytes.old.items ++ chars.now }
    ensures bad { result ≡ false → (more : List ℕ) → strict_bytes (base64_text bytes.old.items ++ (chars.now ++ more)) ≡ None }
    ensures len { vec_len bytes.new ≤ vec_len bytes.old + length chars.now }
    ensures room { vec_capacity bytes.old ≤ vec_capacity bytes.new }
{
    if is_padded(bytes) {
        return false;
    }
    let mut decoded = [0u8; 57];
    match STANDARD.decode_slice_unchecked(chars, &mut decoded) {
        Ok(count) => {
            append(bytes, &decoded[..count]);
            true
        }
        Err(_) => false,
    }
}

impl Text {
    ghost use Rattle.gd_dump_reading.specs.TextLeft.{Takes, text_left};

    pub fn new(alloc: Global) -> Text
        ensures bytes { result.bytes.items ≡ [] }
        ensures len { vec_len result.bytes ≡ 0 }
        ensures quad { array_vec_len result.quad ≡ 0 }
    {
        Text {
            size: 0,
            at: 0,
            len: 0,
            bad: false,
            bytes: Vec::new(alloc),
            quad: ArrayVec::new(),
        }
    }

    /// A datum of this size was announced at a place.
    pub fn start(&mut self, size: u64, at: u64)
        requires { size ≤ 2 ^ 30 }
        ensures left { (more : List ℕ) (follows : Bool) (end : ℕ) → text_left self.new more follows end ≡ datum_in size at more follows end }
        ensures len { (vec_len self.new.bytes ≡ 0) × (array_vec_len self.new.quad ≡ 0) }
        ensures room { vec_capacity self.old.bytes ≤ vec_capacity self.new.bytes }
    {
        self.size = size;
        self.at = at;
        self.len = 0;
        self.bad = false;
        self.bytes.clear();
        self.quad.clear();
    }

    /// Would the text be longer than the size allows, with so many characters more?
    pub fn is_over(&self, more: usize) -> bool
        ensures over { result ≡ true → (chars rest : List ℕ) (follows : Bool) (end : ℕ) → more ≤ length chars → text_left self.now (chars ++ rest) follows end ≡ Err (DumpKind.Length, self.now.at) }
        ensures short { result ≡ false → self.now.len + more ≤ text_size self.now.size }
    {
        let wanted = (self.size + 2) / 3 * 4;
        more as u64 > wanted - self.len
    }

    /// The refusal of a text that is too long.
    pub fn too_long(&self) -> Refusal
        ensures { (result.kind ≡ DumpKind.Length) × (result.place ≡ self.now.at) }
    {
        self.stop(DumpKind::Length)
    }

    // A character that ends no group.
    fn keep_one(&mut self, char: u8)
        requires good { self.old.bad ≡ false }
        requires few { array_vec_len self.old.quad < 3 }
        requires short { self.old.len + 1 ≤ text_size self.old.size }
        ensures takes { Takes self.old self.new (char ∷ []) }
        ensures fits { vec_len self.new.bytes + array_vec_len self.new.quad ≤ vec_len self.old.bytes + array_vec_len self.old.quad + 1 }
        ensures room { vec_capacity self.old.bytes ≤ vec_capacity self.new.bytes }
    {
        self.quad.push(char);
        self.len += 1;
    }

    // A character that ends a group.
    fn end_group(&mut self, char: u8)
        requires good { self.old.bad ≡ false }
        requires three { array_vec_len self.old.quad ≡ 3 }
        requires short { self.old.len + 1 ≤ text_size self.old.size }
        requires room { vec_len self.old.bytes + 4 ≤ vec_capacity self.old.bytes }
        ensures takes { Takes self.old self.new (char ∷ []) }
        ensures fits { vec_len self.new.bytes + array_vec_len self.new.quad ≤ vec_len self.old.bytes + array_vec_len self.old.quad + 1 }
        ensures room { vec_capacity self.old.bytes ≤ vec_capacity self.new.bytes }
    {
        let group = [self.quad[0], self.quad[1], self.quad[2], char];
        self.quad.clear();
        self.bad = !decode(&mut self.bytes, &group);
        self.len += 1;
    }

    // One character.
    fn take_one(&mut self, char: u8)
        requires good { self.old.bad ≡ false }
        requires short { self.old.len + 1 ≤ text_size self.old.size }
        requires room { vec_len self.old.bytes + array_vec_len self.old.quad + 1 ≤ vec_capacity self.old.bytes }
        ensures takes { Takes self.old self.new (char ∷ []) }
        ensures fits { vec_len self.new.bytes + array_vec_len self.new.quad ≤ vec_len self.old.bytes + array_vec_len self.old.quad + 1 }
        ensures room { vec_capacity self.old.bytes ≤ vec_capacity self.new.bytes }
    {
        if self.quad.len() < 3 {
            return self.keep_one(char);
        }
        self.end_group(char)
    }

    // Whole groups of characters.
    fn take_groups(&mut self, chars: &[u8])
        requires good { self.old.bad ≡ false }
        requires none { array_vec_len self.old.quad ≡ 0 }
        requires some { 0 < length chars.now }
        requires groups { length chars.now % 4 ≡ 0 }
        requires line { length chars.now ≤ 76 }
        requires short { self.old.len + length chars.now ≤ text_size self.old.size }
        requires room { vec_len self.old.bytes + length chars.now ≤ vec_capacity self.old.bytes }
        ensures takes { Takes self.old self.new chars.now }
        ensures fits { vec_len self.new.bytes + array_vec_len self.new.quad ≤ vec_len self.old.bytes + length chars.now }
        ensures room { vec_capacity self.old.bytes ≤ vec_capacity self.new.bytes }
    {
        self.bad = !decode(&mut self.bytes, chars);
        self.len += chars.len() as u64;
    }

    /// Takes some characters at the front of a part of a line, and answers how many.
    pub fn take(&mut self, part: &[u8]) -> usize
        requires some { 0 < length part.now }
        requires short { self.old.len + length part.now ≤ text_size self.old.size }
        requires room { vec_len self.old.bytes + array_vec_len self.old.quad + length part.now ≤ vec_capacity self.old.bytes }
        ensures some { 0 < result }
        ensures within { result ≤ length part.now }
        ensures takes { Takes self.old self.new (take result part.now) }
        ensures fits { vec_len self.new.bytes + array_vec_len self.new.quad ≤ vec_len self.old.bytes + array_vec_len self.old.quad + result }
        ensures room { vec_capacity self.old.bytes ≤ vec_capacity self.new.bytes }
    {
        if self.bad {
            self.len += part.len() as u64;
            return part.len();
        }
        if self.quad.is_empty() && part.len() >= 4 {
            let count = part.len().min(LINE) / 4 * 4;
            self.take_groups(&part[..count]);
            return count;
        }
        self.take_one(part[0]);
        1
    }

    /// A line follows the text: why it is refused, or else the bytes are those of the datum.
    pub fn refusal(&self) -> Option<Refusal>
        ensures { MatchOption result ((end : ℕ) → text_left self.now [] true end ≡ Ok self.now.bytes.items) (λ r. (end : ℕ) → text_left self.now [] true end ≡ Err (r.kind, r.place)) }
    {
        let wanted = (self.size + 2) / 3 * 4;
        if self.len != wanted {
            return Some(self.stop(DumpKind::Length));
        }
        if self.bad {
            return Some(self.stop(DumpKind::Base64));
        }
        if size_of(&self.bytes) as u64 != self.size {
            return Some(self.stop(DumpKind::Length));
        }
        None
    }

    fn stop(&self, kind: DumpKind) -> Refusal
        ensures { (result.kind ≡ kind) × (result.place ≡ self.now.at) }
    {
        Refusal {
            kind,
            place: self.at,
        }
    }

    /// Makes room for so many bytes more.
    pub fn make_room(&mut self, more: usize) -> Result<(), OutOfMemory>
        requires { more < 2 ^ 63 }
        ensures room { OnOk result (vec_len self.new.bytes + array_vec_len self.new.quad + more ≤ vec_capacity self.new.bytes) }
        ensures left { (chars : List ℕ) (follows : Bool) (end : ℕ) → text_left self.new chars follows end ≡ text_left self.old chars follows end }
        ensures len { (vec_len self.new.bytes ≡ vec_len self.old.bytes) × (self.new.quad ≡ self.old.quad) }
    {
        match self.bytes.reserve(more + 3) {
            Ok(()) => Ok(()),
            Err(_) => Err(OutOfMemory),
        }
    }

    /// The bytes that were decoded, for which an empty list stands from now on.
    pub fn give(&mut self, room: Vec<u8>) -> Vec<u8>
        ensures bytes { result.items ≡ self.old.bytes.items }
        ensures len { (vec_len self.new.bytes ≡ 0) × (array_vec_len self.new.quad ≡ 0) }
        ensures room { vec_capacity room ≤ vec_capacity self.new.bytes }
    {
        self.len = 0;
        self.bad = false;
        self.quad.clear();
        let bytes = replace(&mut self.bytes, room);
        self.bytes.clear();
        bytes
    }
}
