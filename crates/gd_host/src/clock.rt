//! The clock of the host.

ghost use Rattle.std.specs.Prelude.{None};

use gd_base::{Clock, Failed};
use std::rt::Clock as HostTime;
use std::time::{SystemTime, UNIX_EPOCH};

/// The system's clock. A time before 1970, or one past the last value of a u64, is a failure.
#[derive(Drop)]
pub struct HostClock<'a, R: HostTime> {
    rt: &'a R,
    faults: u64,
}

impl<'a, R: HostTime> HostClock<'a, R> {
    pub fn new(rt: &'a R) -> HostClock<'a, R> {
        HostClock { rt, faults: 0 }
    }

    fn nanoseconds(&self) -> Option<u64> {
        let now = SystemTime::now(self.rt).ok()?;
        let since = now.duration_since(UNIX_EPOCH).ok()?;
        u64::try_from(since.as_nanos()).ok()
    }
}

impl<R: HostTime> Clock for HostClock<'_, R> {
    ghost told = { λ _. None };

    ghost fault_count = { λ c. c.faults };

    fn faults(&self) -> u64 {
        self.faults
    }

    fn now(&mut self) -> Result<u64, Failed> {
        match self.nanoseconds() {
            Some(now) => Ok(now),
            None => {
                self.faults = self.faults.saturating_add(1);
                Err(Failed)
            }
        }
    }
}
