//! A file of a vault as a source.

ghost use Rattle.std.specs.Prelude.{◌≡◌, ◌≤◌, ◌+◌, ◌-◌, min, Ok, IfOk, OnErr};
ghost use Rattle.gd_base.specs.Causes.{HasCause};
ghost use Rattle.gd_base.specs.Sources.{Reads};
ghost use Rattle.gd_vault.specs.Views.{OnlyAsks};
ghost use Rattle.gd_vault.specs.Streams.{IsThere, left_at, longest};

use crate::{FileId, Vault};
use gd_base::{Failed, Source};

/// The bytes of one file from a place on. It fails where the vault fails, and ends at the longest length of a file, also
/// where the vault would go on.
#[derive(Drop)]
pub struct VaultSource<'a, V: Vault> {
    vault: &'a mut V,
    f: FileId,
    at: u64,
    ghost there: { IsThere (V.view_of vault.now) f.0 },
    ghost low: { at ≤ longest },
}

impl<'a, V: Vault> VaultSource<'a, V> {
    /// Begins at a place.
    pub fn new(vault: &'a mut V, f: FileId, at: u64) -> VaultSource<'a, V>
        requires there { IsThere (V.view_of vault.old) f.0 }
        requires low { at ≤ longest }
        ensures reference { result.vault.ghost_name ≡ vault.entry.ghost_name }
        ensures now { result.vault.now ≡ vault.old }
        ensures file { result.f.0 ≡ f.0 }
        ensures place { result.at ≡ at }
    {
        VaultSource { vault, f, at }
    }

    /// The place of the next byte, at which another source can go on.
    pub fn place(&self) -> u64
        ensures { result ≡ self.now.at }
    {
        self.at
    }
}

// How many bytes are read at most into a buffer of a size.
fn room(at: u64, size: usize) -> usize
    requires { at ≤ longest }
    ensures { result ≡ min size (longest - at) }
{
    let room = i64::MAX as u64 - at;
    if room < size as u64 {
        room as usize
    } else {
        size
    }
}

impl<'a, V: Vault> Source for VaultSource<'a, V> {
    ghost left = { λ s. left_at (V.view_of s.vault.now) s.f.0 s.at };

    ghost fault_count = { λ s. (V.view_of s.vault.now).faults };

    fn faults(&self) -> u64 {
        self.vault.faults()
    }

    fn read(&mut self, buf: &mut [u8]) -> Result<usize, Failed>
        ensures bytes { Reads (left_at (V.view_of self.old.vault.now) self.old.f.0 self.old.at) (left_at (V.view_of self.new.vault.now) self.new.f.0 self.new.at) result buf.new }
        ensures cause { HasCause (V.view_of self.old.vault.now).faults (V.view_of self.new.vault.now).faults result }
        ensures asks { OnlyAsks (V.view_of self.old.vault.now) (V.view_of self.new.vault.now) }
        ensures reference { self.new.vault.ghost_name ≡ self.old.vault.ghost_name }
        ensures file { self.new.f.0 ≡ self.old.f.0 }
        ensures place { IfOk result (λ n. self.new.at ≡ self.old.at + n) }
        ensures failed { OnErr result (self.new.at ≡ self.old.at) }
        ensures ended { self.old.at ≡ longest → (result ≡ Ok 0) × (V.view_of self.new.vault.now ≡ V.view_of self.old.vault.now) }
    {
        let room = room(self.at, buf.len());
        if room == 0 {
            return Ok(0);
        }
        match self.vault.read_at(self.f, self.at, &mut buf[..room]) {
            Ok(count) => {
                self.at += count as u64;
                Ok(count)
            }
            Err(Failed) => Err(Failed),
        }
    }
}
