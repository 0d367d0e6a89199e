//! A sink in memory, with a list of the calls that are to fail.

ghost use Rattle.std.specs.Prelude.{◌≡◌, ◌⊎◌, ◌<◌, ◌≤◌, ◌+◌, ◌-◌, ◌^◌, [], length, min, Some, Contains, IsErr, OnErr, OnOk};
ghost use Rattle.gd_base.specs.Causes.{HasCause, Rose};
ghost use Rattle.gd_base.specs.Streams.{Writes};

use crate::{CallList, Failed, Sink};
use std::alloc::Global;
use std::marker::Model;

/// A sink that keeps what is written in memory. It fails where the number of the write, counted from 0, is in its
/// list, and where it finds no memory.
#[derive(Debug, Drop)]
pub struct MemSink {
    bytes: Vec<u8>,
    fails: CallList,
    calls: u64,
    faults: u64,
    starved: u64,
}

impl Model for MemSink {
    ghost use Rattle.gd_base.specs.Memory.{SinkState};

    ghost Value = { SinkState };

    ghost view = { λ s. record { bytes = s.bytes.items; fails = s.fails; calls = s.calls; faults = s.faults; starved = s.starved } };
}

impl MemSink {
    /// A sink to which nothing was written.
    pub fn new(alloc: Global, fails: CallList) -> MemSink
        ensures { result ≡ record { bytes = []; fails = fails; calls = 0; faults = 0; starved = 0 } }
    {
        MemSink {
            bytes: Vec::new(alloc),
            fails,
            calls: 0,
            faults: 0,
            starved: 0,
        }
    }

    /// What was written.
    pub fn bytes(&self) -> &[u8]
        ensures { result.now ≡ self.now.bytes }
    {
        &self.bytes
    }

    /// The number of writes for which it found no memory. Each is also a fault.
    pub fn starved(&self) -> u64
        ensures { result ≡ self.now.starved }
    {
        self.starved
    }
}

impl Sink for MemSink {
    ghost written = { λ s. Some s.bytes };

    ghost fault_count = { λ s. s.faults };

    ghost kept = { λ _ _. Unit {0} };

    fn faults(&self) -> u64 {
        self.faults
    }

    fn write(&mut self, bytes: &[u8]) -> Result<usize, Failed>
        requires { 0 < length bytes.now }
        ensures bytes { Writes (Some self.old.bytes) (Some self.new.bytes) result bytes.now }
        ensures cause { HasCause self.old.faults self.new.faults result }
        ensures kept { Unit {0} }
        ensures fails { OnErr result (Contains self.old.fails self.old.calls ⊎ Rose self.old.starved self.new.starved) }
        ensures listed { Contains self.old.fails self.old.calls → IsErr result × (self.new.starved ≡ self.old.starved) }
        ensures fed { OnOk result (self.new.starved ≡ self.old.starved) }
        ensures starved { self.old.starved ≤ self.new.starved }
        ensures counted { self.new.calls ≡ min (self.old.calls + 1) (2 ^ 64 - 1) }
        ensures list { self.new.fails ≡ self.old.fails }
    {
        let call = self.calls;
        self.calls = call.saturating_add(1);
        if self.fails.as_slice().contains(&call) {
            self.faults = self.faults.saturating_add(1);
            return Err(Failed);
        }
        match self.bytes.extend_from_slice(bytes) {
            Ok(()) => Ok(bytes.len()),
            Err(_) => {
                self.faults = self.faults.saturating_add(1);
                self.starved = self.starved.saturating_add(1);
                Err(Failed)
            }
        }
    }

    ghost kept_self = { λ _. tt };

    ghost kept_on = { λ _ _ _ _ _. tt };
}
