//! A file in memory.

ghost use Rattle.std.specs.Prelude.{◌≡◌, ◌+◌, ◌-◌, ◌<◌, ◌≤◌, ◌^◌, ◌++◌, [], length, min, take, drop, replicate, ◌⊎◌, ◌↔◌, max, IsTrue, OnErr, OnOk, IfOk};
ghost use Rattle.gd_vault.specs.Effects.{Torn, written};

use crate::choices::Choices;
use crate::torn::{scramble, tear, write_cut};
use gd_base::OutOfMemory;
use gd_vault::Mode;
use std::alloc::Global;
use std::marker::Model;

/// The bytes of a file, its mode and its stamp.
#[derive(Debug, Drop)]
pub struct FileData {
    bytes: Vec<u8>,
    mode: Mode,
    stamp: u64,
}

impl Model for FileData {
    ghost use Rattle.gd_vault.specs.Content.{File};

    ghost Value = { File };

    ghost view = { λ f. record { bytes = f.bytes.items; mode = f.mode; stamp = f.stamp } };
}

// Fills up with zeros.
fn extend(bytes: &mut Vec<u8>, end: usize) -> Result<(), OutOfMemory>
    ensures done { OnOk result (bytes.new.items ≡ bytes.old.items ++ replicate (end - length bytes.old.items) 0) }
    ensures stays { OnErr result (bytes.new.items ≡ bytes.old.items) }
{
    if bytes.len() >= end {
        return Ok(());
    }
    match bytes.resize(end, 0) {
        Ok(()) => Ok(()),
        Err(_) => Err(OutOfMemory),
    }
}

fn overwrite(bytes: &mut [u8], at: usize, part: &[u8])
    requires { at + length part.now ≤ length bytes.old }
    ensures { bytes.new ≡ take at bytes.old ++ part.now ++ drop (at + length part.now) bytes.old }
{
    let end = at + part.len();
    bytes[at..end].copy_from_slice(part);
}

/// Writes over and past the end; the gap is zeros.
pub fn write_range(bytes: &mut Vec<u8>, at: usize, part: &[u8]) -> Result<(), OutOfMemory>
    requires { at + length part.now < 2 ^ 63 }
    ensures done { OnOk result (bytes.new.items ≡ written bytes.old.items at part.now) }
    ensures stays { OnErr result (bytes.new.items ≡ bytes.old.items) }
{
    match extend(bytes, at + part.len()) {
        Ok(()) => {
            overwrite(bytes, at, part);
            Ok(())
        }
        Err(OutOfMemory) => Err(OutOfMemory),
    }
}

// Copies what there is from a place on and fits, and answers how much.
fn copy_from(bytes: &[u8], at: u64, buf: &mut [u8]) -> usize
    ensures count { result ≡ min (length buf.old) (length bytes.now - at) }
    ensures bytes { take result buf.new ≡ take result (drop at bytes.now) }
{
    if at >= bytes.len() as u64 {
        return 0;
    }
    let rest = &bytes[at as usize..];
    let count = buf.len().min(rest.len());
    buf[..count].copy_from_slice(&rest[..count]);
    count
}

impl FileData {
    pub fn new(bytes: Vec<u8>, mode: Mode, stamp: u64) -> FileData
        ensures { result ≡ record { bytes = bytes.items; mode = mode; stamp = stamp } }
    {
        FileData { bytes, mode, stamp }
    }

    pub fn copy(&self, alloc: Global) -> Result<FileData, OutOfMemory>
        ensures { IfOk result (λ f. f ≡ self.now) }
    {
        match self.bytes.to_vec(alloc) {
            Ok(bytes) => Ok(FileData {
                bytes,
                mode: self.mode,
                stamp: self.stamp,
            }),
            Err(_) => Err(OutOfMemory),
        }
    }

    pub fn bytes(&self) -> &[u8]
        ensures { result.now ≡ self.now.bytes }
    {
        &self.bytes
    }

    pub fn len(&self) -> u64
        ensures len { result ≡ length self.now.bytes }
        ensures short { result < 2 ^ 63 }
    {
        self.bytes.len() as u64
    }

    pub fn mode(&self) -> Mode
        ensures { result ≡ self.now.mode }
    {
        self.mode
    }

    pub fn stamp(&self) -> u64
        ensures { result ≡ self.now.stamp }
    {
        self.stamp
    }

    pub fn read(&self, at: u64, buf: &mut [u8]) -> usize
        ensures count { result ≡ min (length buf.old) (length self.now.bytes - at) }
        ensures bytes { take result buf.new ≡ take result (drop at self.now.bytes) }
    {
        copy_from(&self.bytes, at, buf)
    }

    pub fn write(&mut self, at: u64, part: &[u8]) -> Result<(), OutOfMemory>
        requires { at + length part.now < 2 ^ 63 }
        ensures done { OnOk result (self.new ≡ record self.old { bytes = written self.old.bytes at part.now }) }
        ensures stays { OnErr result (self.new ≡ self.old) }
    {
        write_range(&mut self.bytes, at as usize, part)
    }

    pub fn truncate(&mut self)
        ensures { self.new ≡ record self.old { bytes = [] } }
    {
        self.bytes.clear();
    }

    pub fn replace(&mut self, bytes: Vec<u8>, stamp: u64)
        ensures { self.new ≡ record { bytes = bytes.items; mode = self.old.mode; stamp = stamp } }
    {
        self.bytes = bytes;
        self.stamp = stamp;
    }

    pub fn set_mode(&mut self, mode: Mode)
        ensures { self.new ≡ record self.old { mode = mode } }
    {
        self.mode = mode;
    }

    /// What a crash leaves of a write. The choice 0 is the usual one, 1 the other of done and not done; any other has
    /// spoilt bytes: how many are as written, the value of the rest, and how many are missing at the end.
    pub fn crash_write(
        &mut self,
        alloc: Global,
        at: u64,
        part: &[u8],
        most: u64,
        done: bool,
        choices: &mut Choices,
    ) -> Result<(), OutOfMemory>
        ensures torn { OnOk result (Torn at (length part.now) self.old.bytes self.new.bytes) }
        ensures no_longer { OnOk result (length self.new.bytes ≤ max (length self.old.bytes) most) }
        ensures marks { (self.new.mode ≡ self.old.mode) × (self.new.stamp ≡ self.old.stamp) }
    {
        let choice = choices.next();
        if choice == u64::from(done) || is_past(at, part.len()) {
            return Ok(());
        }
        if choice < 2 {
            write_cut(&mut self.bytes, at as usize, part, most as usize)
        } else {
            tear(
                alloc,
                &mut self.bytes,
                at as usize,
                part,
                most as usize,
                choices,
            )
        }
    }

    /// What a crash leaves of a truncation. Any other choice than 0 and 1 has spoilt bytes.
    pub fn crash_truncate(&mut self, done: bool, choices: &mut Choices)
        ensures { (self.new.mode ≡ self.old.mode) × (self.new.stamp ≡ self.old.stamp) }
    {
        let choice = choices.next();
        if choice == u64::from(done) {
            return;
        }
        if choice < 2 {
            self.bytes.clear();
        } else {
            scramble(&mut self.bytes, choices);
        }
    }

    /// What a crash leaves of a clone: of these bytes, which any other choice than 0 and 1 spoils, and the stamp, for
    /// which 0 is the new one, 1 the old one, and any other choice itself.
    pub fn crash_clone(&mut self, bytes: Vec<u8>, stamp: u64, done: bool, choices: &mut Choices)
        ensures { self.new.mode ≡ self.old.mode }
    {
        let choice = choices.next();
        if choice == u64::from(done) {
            return;
        }
        self.bytes = bytes;
        if choice > 1 {
            scramble(&mut self.bytes, choices);
        }
        match choices.next() {
            0 => self.stamp = stamp,
            1 => {}
            other => self.stamp = other,
        }
    }

    /// What a crash leaves of a mode: the choice 0 is the usual one, any other the other of done and not done.
    pub fn crash_mode(&mut self, mode: Mode, done: bool, choices: &mut Choices)
        ensures { (self.new ≡ self.old) ⊎ (self.new ≡ record self.old { mode = mode }) }
    {
        let usual = choices.next() == 0;
        if usual == done {
            self.mode = mode;
        }
    }
}

fn is_past(at: u64, size: usize) -> bool
    ensures { IsTrue result ↔ (2 ^ 63 ≤ at + size) }
{
    at >= 1 << 63 || size as u64 >= (1 << 63) - at
}
