//! The dump's file, held in memory as a source.

ghost use Rattle.std.specs.Prelude.{◌≡◌, ◌<◌, ◌≤◌, ◌^◌, ◌+◌, ◌-◌, Ok, Some, IfOk, IfErr, OnOk, drop, false, length, min, take, true};
ghost use Rattle.gd_base.specs.Causes.{HasCause};
ghost use Rattle.gd_base.specs.Sources.{Reads};
ghost use Rattle.gd_vault.specs.Views.{HasFile, OnlyAsks};
ghost use Rattle.gd_loader.specs.Held.{AtFile, IsFront, NotRead, ReadsOn, readable_front};

use gd_base::{DbError, Failed, Source};
use gd_vault::{FileId, Vault};
use std::alloc::Global;
use std::marker::Model;

/// The most bytes of a file that are read.
const MOST: usize = 1 << 32;

const PAGE: usize = 4096;

/// What was read of a file, as a source that never fails.
#[derive(Debug, Drop)]
pub struct Held {
    bytes: Vec<u8>,
    place: usize,
}

impl Model for Held {
    ghost use Rattle.std.specs.Prelude.{◌≤◌, ℕ, List, drop, length};

    ghost Value = { List ℕ };

    ghost view = { λ h. drop h.place h.bytes.items };

    ghost invariant = { λ h. h.place ≤ length h.bytes.items };
}

// Copies what fits, and answers how much.
fn give(rest: &[u8], buf: &mut [u8]) -> usize
    ensures count { result ≡ min (length buf.old) (length rest.now) }
    ensures bytes { take result buf.new ≡ take result rest.now }
{
    let count = buf.len().min(rest.len());
    buf[..count].copy_from_slice(&rest[..count]);
    count
}

impl Source for Held {
    ghost left = { λ h. Some h };

    ghost fault_count = { λ h. 0 };

    fn faults(&self) -> u64 {
        0
    }

    fn read(&mut self, buf: &mut [u8]) -> Result<usize, Failed>
        ensures bytes { Reads (Some self.old) (Some self.new) result buf.new }
        ensures cause { HasCause 0 0 result }
    {
        let count = give(&self.bytes[self.place..], buf);
        self.place += count;
        Ok(count)
    }
}

// How many bytes more are read at once.
fn room_behind(held: usize) -> usize
    requires { held ≤ 2 ^ 32 }
    ensures { result ≡ min 4096 (2 ^ 32 - held) }
{
    PAGE.min(MOST - held)
}

// Reads from a place of a file into the front of a page.
fn read_front<V: Vault>(
    vault: &mut V,
    f: FileId,
    at: u64,
    page: &mut [u8],
    room: usize,
) -> Result<usize, Failed>
    requires there { HasFile (V.view_of vault.old) f.0 }
    requires room { room ≤ length page.old }
    ensures read { IfOk result (λ n. AtFile (V.view_of vault.old) f.0 (λ file. (n ≡ min room (length file - at)) × (take n (take room page.new) ≡ take n (drop at file)))) }
    ensures small { IfOk result (λ n. n ≤ room) }
    ensures asks { OnlyAsks (V.view_of vault.old) (V.view_of vault.new) }
    ensures cause { HasCause (V.view_of vault.old).faults (V.view_of vault.new).faults result }
{
    vault.read_at(f, at, &mut page[..room])
}

// Reads on behind what was read of a file. Does the file go on?
fn read_on<V: Vault>(bytes: &mut Vec<u8>, f: FileId, vault: &mut V) -> Result<bool, DbError>
    requires there { HasFile (V.view_of vault.old) f.0 }
    requires few { length bytes.old.items ≤ 2 ^ 32 }
    ensures few { length bytes.new.items ≤ 2 ^ 32 }
    ensures more { IfOk result (λ more. more ≡ true → length bytes.old.items < length bytes.new.items) }
    ensures reads { AtFile (V.view_of vault.old) f.0 (λ file. IsFront bytes.old.items file → ReadsOn result bytes.new.items file) }
    ensures asks { OnlyAsks (V.view_of vault.old) (V.view_of vault.new) }
    ensures answered { OnOk result ((V.view_of vault.new).faults ≡ (V.view_of vault.old).faults) }
    ensures cause { IfErr result (λ e. NotRead e (V.view_of vault.old).faults (V.view_of vault.new).faults) }
{
    let mut page = [0; PAGE];
    let room = room_behind(bytes.len());
    let Ok(count) = read_front(vault, f, bytes.len() as u64, &mut page, room) else {
        return Err(DbError::VaultFault);
    };
    if count == 0 {
        return Ok(false);
    }
    match bytes.extend_from_slice(&page[..count]) {
        Ok(()) => Ok(true),
        Err(_) => Err(DbError::OutOfMemory),
    }
}

/// Reads a file, of which at most 2^32 bytes are read.
pub fn hold<V: Vault>(alloc: Global, f: FileId, vault: &mut V) -> Result<Held, DbError>
    requires { HasFile (V.view_of vault.old) f.0 }
    ensures holds { IfOk result (λ held. AtFile (V.view_of vault.old) f.0 (λ file. held ≡ readable_front file)) }
    ensures few { IfOk result (λ held. length held ≤ 2 ^ 32) }
    ensures asks { OnlyAsks (V.view_of vault.old) (V.view_of vault.new) }
    ensures answered { OnOk result ((V.view_of vault.new).faults ≡ (V.view_of vault.old).faults) }
    ensures cause { IfErr result (λ e. NotRead e (V.view_of vault.old).faults (V.view_of vault.new).faults) }
{
    let mut bytes = Vec::new(alloc);
    while read_on(&mut bytes, f, vault)? {}
    Ok(Held { bytes, place: 0 })
}
