//! The vault in memory, beside its calls as a vault.

ghost use Rattle.std.specs.Prelude.{◌≡◌, ◌≢◌, ◌⊎◌, ◌↔◌, ◌+◌, ◌-◌, ◌<◌, ◌≤◌, ◌^◌, ◌++◌, ◌∷◌, [], false, take, drop, Some, None, min, length, Contains, IfOk, IfSome, IsErr, IsErrOf, IsTrue, OnErr, OnOk, is_ok, option_map, true};
ghost use Rattle.gd_base.specs.Causes.{HasCause, Rose};
ghost use Rattle.gd_vault.specs.Content.{File};
ghost use Rattle.gd_vault.specs.Changes.{Changed, Cloned, KeepsContent, Refused, TellsAfter, Wrote};
ghost use Rattle.gd_vault.specs.Events.{Call};
ghost use Rattle.gd_vault.specs.Events.Call.{Clone_into, Create, Write};
ghost use Rattle.gd_vault.specs.History.{IsProper};
ghost use Rattle.gd_vault.specs.Lawful.{IsLawfulWhere};
ghost use Rattle.gd_vault.specs.Views.{HasFile, IsAt, IsMoment, content_of};
ghost use Rattle.gd_memvault.specs.Disk.{CanDo, call_of, disk_content};
ghost use Rattle.gd_memvault.specs.Ended.{IsAtTold};
ghost use Rattle.gd_memvault.specs.Idle.{IdleWhereStarved};
ghost use Rattle.gd_memvault.specs.Image.{HoldsImage, HoldsWas, IsLeft, IsWas, is_quiet};
ghost use Rattle.gd_memvault.specs.Log.{DoesNothing, IsFull, told_of};
ghost use Rattle.gd_memvault.specs.Memory.{AddsDurable, Fails, HasMoment, HasNoEvent, KeepsRest, fresh, memory_told, memory_view, next_number};

use crate::changes::{Ended, change, do_nothing, now};
use crate::disk::Disk;
use crate::files::FileData;
use crate::images::image_of_picks;
use crate::log::Log;
use crate::steps::Step;
use gd_base::{AddError, CallList, Datum, Failed, Name, OutOfMemory};
use gd_vault::{FileId, Mode};
use std::alloc::Global;
use std::marker::Model;

#[derive(Clone, Copy, Debug)]
pub struct ReadEntry {
    pub f: u64,
    pub at: u64,
    pub size: u64,
}

/// A vault in memory. `new` keeps a record of all calls and tells its history; `plain` keeps none and tells its content
/// alone. Both record their reads, and fail where they find no memory.
#[derive(Debug, Drop)]
pub struct MemVault {
    alloc: Global,
    disk: Disk,
    log: Option<Log>,
    reads: Vec<ReadEntry>,
    fails: CallList,
    calls: u64,
    faults: u64,
    starved: u64,
    written: u64,
    clones: u64,
}

impl Model for MemVault {
    ghost use Rattle.std.specs.Prelude.{map};
    ghost use Rattle.gd_memvault.specs.Log.{IsSound, told_of};
    ghost use Rattle.gd_memvault.specs.Memory.{MemState};

    ghost Value = { MemState };

    ghost view = { λ v. record { disk = v.disk; log = v.log; reads = map (λ r. record { f = r.f; at = r.at; size = r.size }) v.reads.items; fails = v.fails; calls = v.calls; faults = v.faults; starved = v.starved; written = v.written; clones = v.clones } };

    ghost invariant = { λ v. IsSound (told_of v.disk v.log) };
}

impl MemVault {
    /// A vault without files, which tells its content alone.
    pub fn plain(alloc: Global) -> MemVault
        ensures { result ≡ fresh (record { names = []; files = [] }) None }
    {
        MemVault {
            alloc,
            disk: Disk::new(alloc),
            log: None,
            reads: Vec::new(alloc),
            fails: CallList::from(Vec::new(alloc)),
            calls: 0,
            faults: 0,
            starved: 0,
            written: 0,
            clones: 0,
        }
    }

    /// A vault without files, which tells its history.
    pub fn new(alloc: Global) -> MemVault
        ensures { result ≡ fresh (record { names = []; files = [] }) (Some (record { entries = []; idle = 0 })) }
    {
        MemVault {
            alloc,
            disk: Disk::new(alloc),
            log: Some(Log::new(alloc)),
            reads: Vec::new(alloc),
            fails: CallList::from(Vec::new(alloc)),
            calls: 0,
            faults: 0,
            starved: 0,
            written: 0,
            clones: 0,
        }
    }

    /// From now on the calls with these numbers are to fail. All calls but `faults` and `moment` are numbered from 0 over
    /// the vault's life. A `create` of a name that stands for a file answers so all the same.
    pub fn fail_calls(&mut self, calls: CallList)
        ensures { self.new ≡ record self.old { fails = calls } }
    {
        self.fails = calls;
    }

    /// The number of calls for which it found no memory. Each is also a fault.
    pub fn starved(&self) -> u64
        ensures { result ≡ self.now.starved }
    {
        self.starved
    }

    // Counts a call, and answers whether it is to fail.
    pub(crate) fn next_call(&mut self) -> bool
        ensures listed { IsTrue result ↔ Contains self.old.fails self.old.calls }
        ensures rest { self.new ≡ record self.old { calls = next_number self.old.calls } }
    {
        let call = self.calls;
        self.calls = call.saturating_add(1);
        self.fails.as_slice().contains(&call)
    }

    pub(crate) fn fault(&mut self) -> Failed
        ensures state { self.new ≡ record self.old { faults = min (self.old.faults + 1) (2 ^ 64 - 1) } }
        ensures later { self.old.faults ≤ self.new.faults }
    {
        self.faults = self.faults.saturating_add(1);
        Failed
    }

    pub(crate) fn starve(&mut self) -> Failed
        ensures state { self.new ≡ record self.old { faults = min (self.old.faults + 1) (2 ^ 64 - 1); starved = min (self.old.starved + 1) (2 ^ 64 - 1) } }
        ensures later { self.old.faults ≤ self.new.faults }
        ensures starved { self.old.starved ≤ self.new.starved }
    {
        self.faults = self.faults.saturating_add(1);
        self.starved = self.starved.saturating_add(1);
        Failed
    }

    // A changing call that came to nothing.
    pub(crate) fn do_nothing(&mut self)
        ensures told { DoesNothing (memory_told self.old) (memory_told self.new) }
        ensures rest { self.new ≡ record self.old { log = self.new.log } }
    {
        do_nothing(&mut self.log);
    }

    // Does a step, unless it is to fail.
    pub(crate) fn change(&mut self, listed: bool, step: Step) -> Result<(), Failed>
        requires { listed ≡ false → IsAtTold (memory_told self.old) (CanDo step) }
        ensures told { TellsAfter (call_of step) (is_ok result) (memory_told self.old) (memory_told self.new) }
        ensures cause { HasCause self.old.faults self.new.faults result }
        ensures failed { OnErr result (IsTrue listed ⊎ IsFull (memory_told self.old) ⊎ Rose self.old.starved self.new.starved) }
        ensures listed { IsTrue listed → IsErr result }
        ensures fed { OnOk result (self.new.starved ≡ self.old.starved) }
        ensures starved { self.old.starved ≤ self.new.starved }
        ensures content { IsTrue listed → content_of (memory_told self.new) ≡ content_of (memory_told self.old) }
        ensures idle { IdleWhereStarved self.old self.new }
        ensures rest { KeepsRest self.old self.new }
    {
        match change(self.alloc, &mut self.disk, &mut self.log, listed, step) {
            Ended::Done => Ok(()),
            Ended::Failed => {
                self.faults = self.faults.saturating_add(1);
                Err(Failed)
            }
            Ended::Starved => {
                self.faults = self.faults.saturating_add(1);
                self.starved = self.starved.saturating_add(1);
                Err(Failed)
            }
        }
    }

    pub(crate) fn find(&self, name: &[u8]) -> Option<FileId>
        ensures found { IsAt (memory_view self.now) (λ c. c.names name.now ≡ option_map (λ f. f.0) result) }
        ensures there { IfSome result (λ f. HasFile (memory_view self.now) f.0) }
    {
        match now(&self.disk, &self.log).find(name) {
            Some(id) => Some(FileId(id)),
            None => None,
        }
    }

    // The file of an id.
    pub(crate) fn file(&self, f: FileId) -> Option<&FileData>
        ensures { IsAt (memory_view self.now) (λ c. option_map (λ x. x.now) result ≡ c.files f.0) }
    {
        now(&self.disk, &self.log).file(f.0)
    }

    /// Puts a durable file there, before the first changing call. `Exists` comes exactly where the name stands for a file.
    pub fn add_file(
        &mut self,
        name: Name,
        bytes: Datum,
        mode: Mode,
        stamp: u64,
    ) -> Result<FileId, AddError>
        requires { HasNoEvent self.old }
        ensures added { IfOk result (λ f. AddsDurable name (record { bytes = bytes; mode = mode; stamp = stamp }) f.0 (memory_told self.old) (memory_told self.new)) }
        ensures exists { IsAt (memory_view self.old) (λ c. IsErrOf result AddError.Exists ↔ (c.names name ≢ None)) }
        ensures refused { OnErr result (self.new ≡ self.old) }
        ensures rest { self.new ≡ record self.old { disk = self.new.disk } }
    {
        if self.find(name.as_str().as_bytes()).is_some() {
            return Err(AddError::Exists);
        }
        let Ok(copy) = Datum::from_slice(self.alloc, name.as_str().as_bytes()) else {
            return Err(AddError::OutOfMemory);
        };
        match self
            .disk
            .add(copy, FileData::new(bytes.into_vec(), mode, stamp))
        {
            Ok(id) => Ok(FileId(id)),
            Err(_) => Err(AddError::OutOfMemory),
        }
    }

    /// A vault that holds what a crash may leave at a moment, durable, and in which nothing was called.
    ///
    /// It goes over the calls up to the moment, the oldest first, and asks for choices in this order. The choice 0 is
    /// what happened, so that without another one it holds what the vault was.
    ///
    /// - `write_at`: 1 is the other of done and not done. Any other number asks three more: how many bytes of the range
    ///   are as written, the value of the rest, and how many bytes are missing at the end, of those past the old end.
    /// - `truncate`: 1 is the other of done and not done. Any other number asks three more: how many of the old bytes
    ///   are kept, the value of the rest, and how many are missing at the end.
    /// - `clone_into`: 1 is the other of done and not done. Any other number asks the same three more, of the bytes cloned.
    ///   Where it is done it then asks for the stamp: 0 is the new one, 1 the old one, any other is itself.
    /// - `set_mode`: any other number is the other of done and not done.
    /// - `create`, `remove` and `replace`: for each name, that of `to` before that of `from`, any other number is the
    ///   other of what it may stand for.
    /// - `sync` and `sync_names` ask nothing, and end what was chosen before.
    ///
    /// Inside a call that runs, not done is what happened. There the choices on a file come before those on names.
    pub fn image_at(&self, alloc: Global, t: u64, pick: &[u64]) -> Result<MemVault, OutOfMemory>
        requires { HasMoment self.now t }
        ensures image { IfOk result (λ v. HoldsImage self.now t v) }
        ensures quiet { is_quiet pick.now ≡ true → IfOk result (λ v. HoldsWas self.now t v) }
    {
        let disk = self.image(alloc, t, pick)?;
        Ok(MemVault {
            alloc,
            disk,
            log: Some(Log::new(alloc)),
            reads: Vec::new(alloc),
            fails: CallList::from(Vec::new(alloc)),
            calls: 0,
            faults: 0,
            starved: 0,
            written: 0,
            clones: 0,
        })
    }

    /// Whether it tells its history, and the moment is not past the present one.
    pub fn has_moment(&self, t: u64) -> bool
        ensures { IsTrue result ↔ HasMoment self.now t }
    {
        match &self.log {
            Some(log) => t <= log.moment(),
            None => false,
        }
    }

    fn image(&self, alloc: Global, t: u64, pick: &[u64]) -> Result<Disk, OutOfMemory>
        requires { HasMoment self.now t }
        ensures left { IfOk result (λ d. IsLeft self.now t d) }
        ensures quiet { is_quiet pick.now ≡ true → IfOk result (λ d. IsWas self.now t d) }
    {
        match &self.log {
            Some(log) => image_of_picks(alloc, &self.disk, log, t, pick),
            None => Err(OutOfMemory),
        }
    }

    /// The bytes of a file, as the vault reads.
    pub fn bytes(&self, f: FileId) -> &[u8]
        requires { HasFile (memory_view self.now) f.0 }
        ensures { IsAt (memory_view self.now) (λ c. (x : File) → c.files f.0 ≡ Some x → result.now ≡ x.bytes) }
    {
        match self.file(f) {
            Some(file) => file.bytes(),
            None => &[],
        }
    }

    // The next changing call, which does a step.
    pub(crate) fn change_next(&mut self, step: Step) -> Result<(), Failed>
        requires { IsAtTold (memory_told self.old) (CanDo step) }
        ensures changed { Changed (call_of step) result (memory_view self.old) (memory_view self.new) }
        ensures fails { Fails (IsFull (memory_told self.old)) result self.old self.new }
        ensures idle { IdleWhereStarved self.old self.new }
    {
        let listed = self.next_call();
        self.change(listed, step)
    }

    // The next changing call, for which no memory was found.
    pub(crate) fn starve_next(&mut self) -> Result<(), Failed>
        ensures changed { (call : Call) → Changed call result (memory_view self.old) (memory_view self.new) }
        ensures fails { Fails ⊥ result self.old self.new }
        ensures idle { IdleWhereStarved self.old self.new }
        ensures content { KeepsContent (memory_view self.old) (memory_view self.new) }
        ensures failed { IsErr result }
    {
        self.next_call();
        self.do_nothing();
        Err(self.starve())
    }

    // The next changing call, which makes a file.
    pub(crate) fn create_next(&mut self, name: &Name, mode: Mode) -> Result<(), Failed>
        ensures changed { Changed (Create name.now mode) result (memory_view self.old) (memory_view self.new) }
        ensures fails { Fails (IsFull (memory_told self.old)) result self.old self.new }
        ensures idle { IdleWhereStarved self.old self.new }
    {
        match Datum::from_slice(self.alloc, name.as_str().as_bytes()) {
            Ok(copy) => self.change_next(Step::Create(copy, mode)),
            Err(_) => self.starve_next(),
        }
    }

    // The next changing call, which writes.
    pub(crate) fn write_next(&mut self, f: FileId, at: u64, part: Datum) -> Result<(), Failed>
        requires { at + length part < 2 ^ 63 }
        ensures wrote { Wrote (Write f.0 at part) (length part) result (memory_view self.old) (memory_view self.new) }
        ensures fails { Fails (IsFull (memory_told self.old)) result self.old self.new }
        ensures idle { IdleWhereStarved self.old self.new }
    {
        let size = part.as_slice().len() as u64;
        match self.change_next(Step::Write(f.0, at, part)) {
            Ok(()) => {
                self.written = self.written.saturating_add(size);
                Ok(())
            }
            Err(Failed) => Err(Failed),
        }
    }

    // The next changing call, which clones.
    pub(crate) fn clone_next(&mut self, dst: FileId, src: FileId, stamp: u64) -> Result<(), Failed>
        requires { HasFile (memory_view self.old) src.0 }
        ensures cloned { Cloned (Clone_into dst.0 src.0 stamp) result (memory_view self.old) (memory_view self.new) }
        ensures fails { Fails (IsFull (memory_told self.old)) result self.old self.new }
        ensures idle { IdleWhereStarved self.old self.new }
    {
        match self.change_next(Step::CloneInto(dst.0, src.0, stamp)) {
            Ok(()) => {
                self.clones = self.clones.saturating_add(1);
                Ok(())
            }
            Err(Failed) => Err(Failed),
        }
    }

    // The next changing call, which is a write past the longest length.
    pub(crate) fn refuse_next(&mut self, f: FileId, at: u64, part: Datum) -> Result<(), Failed>
        requires { 2 ^ 63 ≤ at + length part }
        ensures wrote { Wrote (Write f.0 at part) (length part) result (memory_view self.old) (memory_view self.new) }
        ensures refused { Refused result (memory_view self.old) (memory_view self.new) }
        ensures fails { Fails (IsFull (memory_told self.old) ⊎ (2 ^ 63 ≤ at + length part)) result self.old self.new }
        ensures idle { IdleWhereStarved self.old self.new }
    {
        self.next_call();
        self.change(true, Step::Write(f.0, at, part))
    }

    // Reads as much as there is and fits.
    pub(crate) fn read_file(&self, f: FileId, at: u64, buf: &mut [u8]) -> usize
        ensures small { result ≤ length buf.old }
        ensures read { IsAt (memory_view self.now) (λ c. (x : File) → c.files f.0 ≡ Some x → (result ≡ min (length buf.old) (length x.bytes - at)) × (take result buf.new ≡ take result (drop at x.bytes))) }
    {
        match self.file(f) {
            Some(file) => file.read(at, buf),
            None => 0,
        }
    }

    // Records a read that gave so many bytes, and answers them.
    pub(crate) fn record_read(&mut self, f: FileId, at: u64, count: usize) -> Result<usize, Failed>
        ensures done { IfOk result (λ n. (n ≡ count) × (self.new ≡ record self.old { reads = self.old.reads ++ (record { f = f.0; at = at; size = count }) ∷ [] })) }
        ensures starved { OnErr result (self.new ≡ record self.old { faults = min (self.old.faults + 1) (2 ^ 64 - 1); starved = min (self.old.starved + 1) (2 ^ 64 - 1) }) }
        ensures later { (self.old.faults ≤ self.new.faults) × (self.old.starved ≤ self.new.starved) }
    {
        let read = ReadEntry {
            f: f.0,
            at,
            size: count as u64,
        };
        match self.reads.push(read) {
            Ok(()) => Ok(count),
            Err(_) => Err(self.starve()),
        }
    }

    pub(crate) fn alloc(&self) -> Global {
        self.alloc
    }

    pub(crate) fn fault_count(&self) -> u64
        ensures { result ≡ self.now.faults }
    {
        self.faults
    }

    // The present moment.
    #[tactic(auto, using(crate::proofs::Sounds::proper_now))]
    pub(crate) fn present(&self) -> u64
        ensures moment { IsMoment (memory_view self.now) result }
        ensures lawful { IsLawfulWhere (memory_view self.now) }
        ensures proper { IsAt (memory_view self.now) IsProper }
    {
        match &self.log {
            Some(log) => log.moment(),
            None => 0,
        }
    }
}
