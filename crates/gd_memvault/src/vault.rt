//! The vault in memory as a vault.

ghost use Rattle.std.specs.Prelude.{◌≡◌, ◌≢◌, ◌⊎◌, ◌↔◌, ◌+◌, ◌-◌, ◌<◌, ◌≤◌, ◌^◌, [], ◌∷◌, ◌++◌, Some, Err, None, max, min, length, IfOk, IfSome, IsErr, OnErr, OnOk, IsTrue, option_map};
ghost use Rattle.gd_vault.specs.Content.{File};
ghost use Rattle.gd_vault.specs.Events.Call.{Write, Truncate, Clone_into, Set_mode, Sync, Sync_names, Replace, Remove};
ghost use Rattle.gd_vault.specs.Views.{Asked, HasFile, IsAt, IsMoment, ReadAt};
ghost use Rattle.gd_vault.specs.Changes.{Changed, Cloned, Creates, ExistsWhere, HasName, Refused, Wrote};
ghost use Rattle.gd_vault.specs.History.{IsProper};
ghost use Rattle.gd_vault.specs.Lawful.{IsLawfulWhere};
ghost use Rattle.gd_memvault.specs.Idle.{IdleWhereStarved};
ghost use Rattle.gd_memvault.specs.Log.{IsFull};
ghost use Rattle.gd_memvault.specs.Memory.{Fails, memory_told, memory_view};

use crate::MemVault;
use crate::steps::Step;
use gd_base::{Datum, Failed, Name};
use gd_vault::{CreateError, FileId, Mode, Vault};

impl Vault for MemVault {
    ghost view_of = { memory_view };

    fn faults(&self) -> u64 {
        self.fault_count()
    }

    // Each name stands for a file.
    fn moment(&self) -> u64
        ensures moment { IsMoment (memory_view self.now) result }
        ensures lawful { IsLawfulWhere (memory_view self.now) }
        ensures proper { IsAt (memory_view self.now) IsProper }
    {
        self.present()
    }

    fn lookup(&mut self, name: &Name) -> Result<Option<FileId>, Failed>
        ensures asked { Asked result (memory_view self.old) (memory_view self.new) }
        ensures found { IfOk result (λ id. IsAt (memory_view self.old) (λ c. c.names name.now ≡ option_map (λ f. f.0) id)) }
        ensures there { IfOk result (λ id. IfSome id (λ f. HasFile (memory_view self.new) f.0)) }
        ensures fails { Fails ⊥ result self.old self.new }
    {
        if self.next_call() {
            return Err(self.fault());
        }
        Ok(self.find(name.as_str().as_bytes()))
    }

    fn create(&mut self, name: &Name, mode: Mode) -> Result<FileId, CreateError>
        ensures made { Creates name.now mode result (memory_view self.old) (memory_view self.new) }
        ensures exists { ExistsWhere name.now result (memory_view self.old) }
        ensures there { IfOk result (λ f. HasFile (memory_view self.new) f.0) }
        ensures fails { Fails (IsFull (memory_told self.old) ⊎ (result ≡ Err CreateError.Exists)) result self.old self.new }
        ensures idle { IdleWhereStarved self.old self.new }
    {
        if self.find(name.as_str().as_bytes()).is_some() {
            self.next_call();
            return Err(CreateError::Exists);
        }
        match self.create_next(name, mode) {
            Ok(()) => Ok(self.find(name.as_str().as_bytes()).unwrap()),
            Err(Failed) => Err(CreateError::Failed),
        }
    }

    fn len(&mut self, f: FileId) -> Result<u64, Failed>
        requires { HasFile (memory_view self.old) f.0 }
        ensures asked { Asked result (memory_view self.old) (memory_view self.new) }
        ensures len { IfOk result (λ n. IsAt (memory_view self.old) (λ c. (x : File) → c.files f.0 ≡ Some x → (n ≡ length x.bytes) × (n < 2 ^ 63))) }
        ensures fails { Fails ⊥ result self.old self.new }
    {
        if self.next_call() {
            return Err(self.fault());
        }
        match self.file(f) {
            Some(file) => Ok(file.len()),
            None => Ok(0),
        }
    }

    fn mode(&mut self, f: FileId) -> Result<Mode, Failed>
        requires { HasFile (memory_view self.old) f.0 }
        ensures asked { Asked result (memory_view self.old) (memory_view self.new) }
        ensures mode { IfOk result (λ mode. IsAt (memory_view self.old) (λ c. (x : File) → c.files f.0 ≡ Some x → mode ≡ x.mode)) }
        ensures fails { Fails ⊥ result self.old self.new }
    {
        if self.next_call() {
            return Err(self.fault());
        }
        match self.file(f) {
            Some(file) => Ok(file.mode()),
            None => Ok(Mode::Both),
        }
    }

    fn stamp(&mut self, f: FileId) -> Result<u64, Failed>
        requires { HasFile (memory_view self.old) f.0 }
        ensures asked { Asked result (memory_view self.old) (memory_view self.new) }
        ensures stamp { IfOk result (λ n. IsAt (memory_view self.old) (λ c. (x : File) → c.files f.0 ≡ Some x → n ≡ x.stamp)) }
        ensures fails { Fails ⊥ result self.old self.new }
    {
        if self.next_call() {
            return Err(self.fault());
        }
        match self.file(f) {
            Some(file) => Ok(file.stamp()),
            None => Ok(0),
        }
    }

    fn read_at(&mut self, f: FileId, at: u64, buf: &mut [u8]) -> Result<usize, Failed>
        requires { HasFile (memory_view self.old) f.0 }
        ensures read { ReadAt f.0 at buf.old buf.new result (memory_view self.old) (memory_view self.new) }
        ensures fails { Fails ⊥ result self.old self.new }
    {
        if self.next_call() {
            return Err(self.fault());
        }
        let count = self.read_file(f, at, buf);
        self.record_read(f, at, count)
    }

    fn write_at(&mut self, f: FileId, at: u64, bytes: &[u8]) -> Result<(), Failed>
        requires file { HasFile (memory_view self.old) f.0 }
        requires place { IsAt (memory_view self.old) (λ c. (x : File) → c.files f.0 ≡ Some x → at ≤ max (length x.bytes) (2 ^ 47)) }
        ensures wrote { Wrote (Write f.0 at bytes.now) (length bytes.now) result (memory_view self.old) (memory_view self.new) }
        ensures too_long { 2 ^ 63 ≤ at + length bytes.now → Refused result (memory_view self.old) (memory_view self.new) }
        ensures fails { Fails (IsFull (memory_told self.old) ⊎ (2 ^ 63 ≤ at + length bytes.now)) result self.old self.new }
        ensures idle { IdleWhereStarved self.old self.new }
    {
        let part = match Datum::from_slice(self.alloc(), bytes) {
            Ok(part) => part,
            Err(_) => return self.starve_next(),
        };
        if is_too_long(at, bytes.len()) {
            return self.refuse_next(f, at, part);
        }
        self.write_next(f, at, part)
    }

    fn truncate(&mut self, f: FileId) -> Result<(), Failed>
        requires { HasFile (memory_view self.old) f.0 }
        ensures changed { Changed (Truncate f.0) result (memory_view self.old) (memory_view self.new) }
        ensures fails { Fails (IsFull (memory_told self.old)) result self.old self.new }
        ensures idle { IdleWhereStarved self.old self.new }
    {
        self.change_next(Step::Truncate(f.0))
    }

    fn clone_into(&mut self, dst: FileId, src: FileId, stamp: u64) -> Result<(), Failed>
        requires dst { HasFile (memory_view self.old) dst.0 }
        requires src { HasFile (memory_view self.old) src.0 }
        ensures cloned { Cloned (Clone_into dst.0 src.0 stamp) result (memory_view self.old) (memory_view self.new) }
        ensures fails { Fails (IsFull (memory_told self.old)) result self.old self.new }
        ensures idle { IdleWhereStarved self.old self.new }
    {
        self.clone_next(dst, src, stamp)
    }

    fn set_mode(&mut self, f: FileId, mode: Mode) -> Result<(), Failed>
        requires { HasFile (memory_view self.old) f.0 }
        ensures changed { Changed (Set_mode f.0 mode) result (memory_view self.old) (memory_view self.new) }
        ensures fails { Fails (IsFull (memory_told self.old)) result self.old self.new }
        ensures idle { IdleWhereStarved self.old self.new }
    {
        self.change_next(Step::SetMode(f.0, mode))
    }

    fn sync(&mut self, f: FileId) -> Result<(), Failed>
        requires { HasFile (memory_view self.old) f.0 }
        ensures changed { Changed (Sync f.0) result (memory_view self.old) (memory_view self.new) }
        ensures fails { Fails (IsFull (memory_told self.old)) result self.old self.new }
        ensures idle { IdleWhereStarved self.old self.new }
    {
        self.change_next(Step::Sync(f.0))
    }

    fn sync_names(&mut self) -> Result<(), Failed>
        ensures changed { Changed Sync_names result (memory_view self.old) (memory_view self.new) }
        ensures fails { Fails (IsFull (memory_told self.old)) result self.old self.new }
        ensures idle { IdleWhereStarved self.old self.new }
    {
        self.change_next(Step::SyncNames)
    }

    fn replace(&mut self, from: &Name, to: &Name) -> Result<(), Failed>
        requires { HasName (memory_view self.old) from.now }
        ensures changed { Changed (Replace from.now to.now) result (memory_view self.old) (memory_view self.new) }
        ensures fails { Fails (IsFull (memory_told self.old)) result self.old self.new }
        ensures idle { IdleWhereStarved self.old self.new }
    {
        let from = match Datum::from_slice(self.alloc(), from.as_str().as_bytes()) {
            Ok(from) => from,
            Err(_) => return self.starve_next(),
        };
        match Datum::from_slice(self.alloc(), to.as_str().as_bytes()) {
            Ok(to) => self.change_next(Step::Replace(from, to)),
            Err(_) => self.starve_next(),
        }
    }

    fn remove(&mut self, name: &Name) -> Result<(), Failed>
        ensures changed { Changed (Remove name.now) result (memory_view self.old) (memory_view self.new) }
        ensures fails { Fails (IsFull (memory_told self.old)) result self.old self.new }
        ensures idle { IdleWhereStarved self.old self.new }
    {
        match Datum::from_slice(self.alloc(), name.as_str().as_bytes()) {
            Ok(name) => self.change_next(Step::Remove(name)),
            Err(_) => self.starve_next(),
        }
    }
}

// Whether a range ends past the longest length of a file.
fn is_too_long(at: u64, size: usize) -> bool
    ensures { IsTrue result ↔ (2 ^ 63 ≤ at + size) }
{
    at >= 1 << 63 || size as u64 >= (1 << 63) - at
}
