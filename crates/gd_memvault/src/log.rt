//! The record of all changing calls.

ghost use Rattle.std.specs.Prelude.{◌≡◌, ◌↔◌, ◌+◌, ◌*◌, ◌<◌, ◌^◌, ◌++◌, ◌∷◌, [], OnErr, OnOk, IsTrue};
ghost use Rattle.gd_memvault.specs.Log.{moment_of};

use crate::disk::Disk;
use crate::steps::Step;
use gd_base::OutOfMemory;
use std::alloc::Global;
use std::marker::Model;

/// A changing call, whether it succeeded, and all that the vault held after it. Before it came some failures for which
/// there was no memory, and which did nothing.
#[derive(Debug, Drop)]
pub struct Entry {
    pub step: Step,
    pub ok: bool,
    pub after: Disk,
    pub idle_before: u64,
}

/// The calls, the oldest first, and how many failures that did nothing came after them.
#[derive(Debug, Drop)]
pub struct Log {
    entries: Vec<Entry>,
    idle: u64,
    moment: u64,
}

impl Model for Log {
    ghost use Rattle.std.specs.Prelude.{◌≡◌, ◌+◌, ◌*◌};
    ghost use Rattle.gd_memvault.specs.LogData.{LogData};
    ghost use Rattle.gd_memvault.specs.Log.{count_of};

    ghost Value = { LogData };

    ghost view = { λ l. record { entries = l.entries.items; idle = l.idle } };

    ghost invariant = { λ l. l.moment ≡ 2 * (count_of l.entries.items + l.idle) };
}

impl Log {
    pub fn new(alloc: Global) -> Log
        ensures { result ≡ record { entries = []; idle = 0 } }
    {
        Log {
            entries: Vec::new(alloc),
            idle: 0,
            moment: 0,
        }
    }

    pub fn moment(&self) -> u64
        ensures { result ≡ moment_of self.now }
    {
        self.moment
    }

    /// Whether a call that starts now can end.
    pub fn has_room(&self) -> bool
        ensures { IsTrue result ↔ (moment_of self.now + 2 < 2 ^ 64) }
    {
        self.moment <= u64::MAX - 2
    }

    pub fn entries(&self) -> &[Entry]
        ensures { result.now ≡ self.now.entries }
    {
        &self.entries
    }

    /// A failure that did nothing.
    pub fn idle(&mut self)
        requires { moment_of self.old + 2 < 2 ^ 64 }
        ensures { self.new ≡ record self.old { idle = self.old.idle + 1 } }
    {
        self.idle += 1;
        self.moment += 2;
    }

    pub fn push(&mut self, step: Step, ok: bool, after: Disk) -> Result<(), OutOfMemory>
        requires { moment_of self.old + 2 < 2 ^ 64 }
        ensures done { OnOk result (self.new ≡ record { entries = self.old.entries ++ (record { step = step; ok = ok; after = after; idle_before = self.old.idle }) ∷ []; idle = 0 }) }
        ensures stays { OnErr result (self.new ≡ self.old) }
    {
        let entry = Entry {
            step,
            ok,
            after,
            idle_before: self.idle,
        };
        if self.entries.push(entry).is_err() {
            return Err(OutOfMemory);
        }
        self.idle = 0;
        self.moment += 2;
        Ok(())
    }
}
