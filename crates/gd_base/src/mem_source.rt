//! A source in memory, with a list of the calls that are to fail.

ghost use Rattle.std.specs.Prelude.{◌≡◌, ◌↔◌, ◌+◌, ◌-◌, ◌^◌, length, min, take, Some, Contains, IsErr, IfOk};
ghost use Rattle.gd_base.specs.Causes.{HasCause};
ghost use Rattle.gd_base.specs.Sources.{Reads};

use crate::{CallList, Datum, Failed, Source};
use std::marker::Model;

/// A source that gives bytes out of memory, as many as fit. It fails exactly where the number of the read, counted from
/// 0, is in its list.
#[derive(Debug, Drop)]
pub struct MemSource {
    bytes: Datum,
    place: usize,
    fails: CallList,
    calls: u64,
    faults: u64,
}

impl Model for MemSource {
    ghost use Rattle.std.specs.Prelude.{◌≤◌, drop, length};
    ghost use Rattle.gd_base.specs.Memory.{SourceState};

    ghost Value = { SourceState };

    ghost view = { λ s. record { left = drop s.place s.bytes; fails = s.fails; calls = s.calls; faults = s.faults } };

    ghost invariant = { λ s. s.place ≤ length s.bytes };
}

// Copies what fits, and answers how much.
fn give(rest: &[u8], buf: &mut [u8]) -> usize
    ensures count { result ≡ min (length buf.old) (length rest.now) }
    ensures bytes { take result buf.new ≡ take result rest.now }
{
    let count = buf.len().min(rest.len());
    buf[..count].copy_from_slice(&rest[..count]);
    count
}

impl MemSource {
    /// A source of which nothing was read.
    pub fn new(bytes: Datum, fails: CallList) -> MemSource
        ensures { result ≡ record { left = bytes; fails = fails; calls = 0; faults = 0 } }
    {
        MemSource {
            bytes,
            place: 0,
            fails,
            calls: 0,
            faults: 0,
        }
    }
}

impl Source for MemSource {
    ghost left = { λ s. Some s.left };

    ghost fault_count = { λ s. s.faults };

    fn faults(&self) -> u64 {
        self.faults
    }

    fn read(&mut self, buf: &mut [u8]) -> Result<usize, Failed>
        ensures bytes { Reads (Some self.old.left) (Some self.new.left) result buf.new }
        ensures cause { HasCause self.old.faults self.new.faults result }
        ensures most { IfOk result (λ n. n ≡ min (length buf.old) (length self.old.left)) }
        ensures fails { IsErr result ↔ Contains self.old.fails self.old.calls }
        ensures counted { self.new.calls ≡ min (self.old.calls + 1) (2 ^ 64 - 1) }
        ensures list { self.new.fails ≡ self.old.fails }
    {
        let call = self.calls;
        self.calls = call.saturating_add(1);
        if self.fails.as_slice().contains(&call) {
            self.faults = self.faults.saturating_add(1);
            return Err(Failed);
        }
        let count = give(&self.bytes.as_slice()[self.place..], buf);
        self.place += count;
        Ok(count)
    }
}
