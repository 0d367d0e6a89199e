//! A file of a vault as a sink.

ghost use Rattle.std.specs.Prelude.{◌≡◌, ◌<◌, ◌≤◌, ◌+◌, ◌-◌, length, max, min, refl, IfOk, OnErr};
ghost use Rattle.std.proofs.Common.{◌∙◌, subst};
ghost use Rattle.gd_base.specs.Causes.{HasCause};
ghost use Rattle.gd_base.specs.Streams.{Writes};
ghost use Rattle.gd_vault.specs.Streams.{IsPlace, IsThere, OnlyWrites, longest, only_writes_nothing, only_writes_more, written_before};

use crate::{FileId, Vault};
use gd_base::{Failed, Sink};

/// Writes one file from a place on. What is written are the file's bytes before the place. It fails where the vault
/// fails, so also at the longest length of a file.
///
/// Over its writes the file, the vault and all that the vault holds beside this file's bytes stay.
#[derive(Drop)]
pub struct VaultSink<'a, V: Vault> {
    vault: &'a mut V,
    f: FileId,
    at: u64,
    ghost there: { IsThere (V.view_of vault.now) f.0 },
    ghost inside: { IsPlace (V.view_of vault.now) f.0 at },
    ghost low: { at ≤ longest },
}

impl<'a, V: Vault> VaultSink<'a, V> {
    /// Begins at a place that is not past the file's end.
    pub fn new(vault: &'a mut V, f: FileId, at: u64) -> VaultSink<'a, V>
        requires there { IsThere (V.view_of vault.old) f.0 }
        requires inside { IsPlace (V.view_of vault.old) f.0 at }
        requires low { at ≤ longest }
        ensures reference { result.vault.ghost_name ≡ vault.entry.ghost_name }
        ensures now { result.vault.now ≡ vault.old }
        ensures file { result.f.0 ≡ f.0 }
        ensures place { result.at ≡ at }
    {
        VaultSink { vault, f, at }
    }

    /// The place of the next byte, at which another sink can go on.
    pub fn place(&self) -> u64
        ensures { result ≡ self.now.at }
    {
        self.at
    }
}

// How many bytes are written at most, at least one.
fn portion(at: u64, size: usize) -> usize
    requires low { at ≤ longest }
    requires some { 0 < size }
    ensures { result ≡ min size (max (longest - at) 1) }
{
    let room = (i64::MAX as u64 - at).max(1);
    if room < size as u64 {
        room as usize
    } else {
        size
    }
}

impl<'a, V: Vault> Sink for VaultSink<'a, V> {
    ghost written = { λ s. written_before (V.view_of s.vault.now) s.f.0 s.at };

    ghost fault_count = { λ s. (V.view_of s.vault.now).faults };

    ghost kept = { λ s t. (t.f.0 ≡ s.f.0) × (t.vault.ghost_name ≡ s.vault.ghost_name) × OnlyWrites s.f.0 (V.view_of s.vault.now) (V.view_of t.vault.now) };

    fn faults(&self) -> u64 {
        self.vault.faults()
    }

    fn write(&mut self, bytes: &[u8]) -> Result<usize, Failed>
        requires { 0 < length bytes.now }
        ensures bytes { Writes (written_before (V.view_of self.old.vault.now) self.old.f.0 self.old.at) (written_before (V.view_of self.new.vault.now) self.new.f.0 self.new.at) result bytes.now }
        ensures cause { HasCause (V.view_of self.old.vault.now).faults (V.view_of self.new.vault.now).faults result }
        ensures kept { (self.new.f.0 ≡ self.old.f.0) × (self.new.vault.ghost_name ≡ self.old.vault.ghost_name) × OnlyWrites self.old.f.0 (V.view_of self.old.vault.now) (V.view_of self.new.vault.now) }
        ensures place { IfOk result (λ n. self.new.at ≡ self.old.at + n) }
        ensures failed { OnErr result (self.new.at ≡ self.old.at) }
    {
        let count = portion(self.at, bytes.len());
        match self.vault.write_at(self.f, self.at, &bytes[..count]) {
            Ok(()) => {
                self.at += count as u64;
                Ok(count)
            }
            Err(Failed) => Err(Failed),
        }
    }

    ghost kept_self = { λ s. (refl, refl, only_writes_nothing s.f.0 (V.view_of s.vault.now)) };

    ghost kept_on = { λ s t u one two. (two.0 ∙ one.0, two.1 ∙ one.1, only_writes_more s.f.0 (V.view_of s.vault.now) (V.view_of t.vault.now) (V.view_of u.vault.now) one.2 (subst (λ f. OnlyWrites f (V.view_of t.vault.now) (V.view_of u.vault.now)) one.0 two.2)) };
}
