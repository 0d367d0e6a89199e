//! What tells the time.

ghost use Rattle.std.specs.Prelude.{◌≡◌, ℕ, Option};
ghost use Rattle.gd_base.specs.Causes.{HasCause};
ghost use Rattle.gd_base.specs.Clocks.{Readings, Ticks};

use crate::Failed;

/// What tells the time, in nanoseconds since 1970 began. It may answer anything, and need not rise.
pub trait Clock {
    /// The readings that it gave and the one that comes next, where the clock tells them.
    ghost told: { Self → Option Readings };

    /// How many of its calls failed.
    ghost fault_count: { Self → ℕ };

    /// How many of its calls failed. A call that is answered leaves the count, and one that fails raises it by one, up
    /// to the last value of a u64.
    fn faults(&self) -> u64
        ensures { result ≡ fault_count self.now };

    /// The reading that comes next. A failed call leaves it.
    fn now(&mut self) -> Result<u64, Failed>
        ensures reading { Ticks (told self.old) (told self.new) result }
        ensures cause { HasCause (fault_count self.old) (fault_count self.new) result };
}
