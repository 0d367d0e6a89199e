//! What bytes are read from.

ghost use Rattle.std.specs.Prelude.{◌≡◌, ℕ, List, Option};
ghost use Rattle.gd_base.specs.Causes.{HasCause};
ghost use Rattle.gd_base.specs.Sources.{Reads};

use crate::Failed;

/// What bytes are read from, from its front.
pub trait Source {
    /// The bytes that are left, where the source tells them.
    ghost left: { Self → Option (List ℕ) };

    /// How many of its calls failed.
    ghost fault_count: { Self → ℕ };

    /// How many of its calls failed. A call that is answered leaves the count, and one that fails raises it by one, up
    /// to the last value of a u64.
    fn faults(&self) -> u64
        ensures { result ≡ fault_count self.now };

    /// Takes some of the bytes that are left into the front of the buffer, and answers how many. None for a buffer that
    /// is not empty means the end of the input. A failed read takes nothing.
    fn read(&mut self, buf: &mut [u8]) -> Result<usize, Failed>
        ensures bytes { Reads (left self.old) (left self.new) result buf.new }
        ensures cause { HasCause (fault_count self.old) (fault_count self.new) result };
}
