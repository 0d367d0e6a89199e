//! A clock in memory, with a list of the calls that are to fail.

ghost use Rattle.std.specs.Prelude.{◌≡◌, ◌↔◌, ◌⊎◌, ◌+◌, ◌-◌, ◌^◌, min, Contains, IsErr, IsOk, OnErr, OnOk};
ghost use Rattle.gd_base.specs.Causes.{HasCause};
ghost use Rattle.gd_base.specs.Clocks.{Ticks};
ghost use Rattle.gd_base.specs.Memory.{ClockState, told_by, reading_at};

use crate::{CallList, Clock, Failed};
use std::marker::Model;

/// A clock that answers the numbers of a list in turn, and the last one for good, or 0 where the list is empty. It fails
/// exactly where the number of the call, counted from 0, is in its list, and where the count of calls stands at the last
/// value of a u64.
#[derive(Debug, Drop)]
pub struct MemClock {
    numbers: CallList,
    given: u64,
    fails: CallList,
    calls: u64,
    faults: u64,
}

impl Model for MemClock {
    ghost use Rattle.std.specs.Prelude.{◌≤◌};
    ghost use Rattle.gd_base.specs.Memory.{ClockState};

    ghost Value = { ClockState };

    ghost view = { λ c. record { numbers = c.numbers; given = c.given; fails = c.fails; calls = c.calls; faults = c.faults } };

    ghost invariant = { λ c. c.given ≤ c.calls };
}

// The number at a place, or the last one where the list is shorter.
fn reading(numbers: &[u64], place: u64) -> u64
    ensures { result ≡ reading_at numbers.now place }
{
    if place < numbers.len() as u64 {
        return numbers[place as usize];
    }
    match numbers.last() {
        Some(last) => *last,
        None => 0,
    }
}

impl MemClock {
    /// A clock that gave no reading.
    pub fn new(numbers: CallList, fails: CallList) -> MemClock
        ensures { result ≡ record { numbers = numbers; given = 0; fails = fails; calls = 0; faults = 0 } }
    {
        MemClock {
            numbers,
            given: 0,
            fails,
            calls: 0,
            faults: 0,
        }
    }
}

impl Clock for MemClock {
    ghost told = { told_by };

    ghost fault_count = { λ c. c.faults };

    fn faults(&self) -> u64 {
        self.faults
    }

    fn now(&mut self) -> Result<u64, Failed>
        ensures reading { Ticks (told_by self.old) (told_by self.new) result }
        ensures cause { HasCause self.old.faults self.new.faults result }
        ensures fails { IsErr result ↔ (Contains self.old.fails self.old.calls ⊎ (self.old.calls ≡ 2 ^ 64 - 1)) }
        ensures given { OnOk result (self.new.given ≡ self.old.given + 1) }
        ensures failed { OnErr result (self.new.given ≡ self.old.given) }
        ensures counted { self.new.calls ≡ min (self.old.calls + 1) (2 ^ 64 - 1) }
        ensures list { self.new.fails ≡ self.old.fails }
        ensures numbers { self.new.numbers ≡ self.old.numbers }
    {
        let call = self.calls;
        self.calls = call.saturating_add(1);
        if call == u64::MAX || self.fails.as_slice().contains(&call) {
            self.faults = self.faults.saturating_add(1);
            return Err(Failed);
        }
        let reading = reading(self.numbers.as_slice(), self.given);
        self.given += 1;
        Ok(reading)
    }
}
