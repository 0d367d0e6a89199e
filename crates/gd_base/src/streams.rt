//! What bytes are written to.

ghost use Rattle.std.specs.Prelude.{◌≡◌, ◌<◌, ℕ, List, Option, length};
ghost use Rattle.gd_base.specs.Causes.{HasCause};
ghost use Rattle.gd_base.specs.Streams.{Puts, Writes};

use crate::Failed;

/// What bytes are written to, at its end.
pub trait Sink {
    /// The bytes that were written, where the sink tells them.
    ghost written: { Self → Option (List ℕ) };

    /// How many of its calls failed.
    ghost fault_count: { Self → ℕ };

    /// What each write, a failed one too, leaves between the sink before and after.
    ghost kept: { Self → Self → Type 0 };

    /// How many of its calls failed. A call that is answered leaves the count, and one that fails raises it by one, up
    /// to the last value of a u64.
    fn faults(&self) -> u64
        ensures { result ≡ fault_count self.now };

    /// Writes some first bytes, at least one, and answers how many. A failed write appends nothing.
    fn write(&mut self, bytes: &[u8]) -> Result<usize, Failed>
        requires { 0 < length bytes.now }
        ensures bytes { Writes (written self.old) (written self.new) result bytes.now }
        ensures cause { HasCause (fault_count self.old) (fault_count self.new) result }
        ensures kept { kept self.old self.new };

    /// It holds of each state and itself, and over two writes in a row.
    ghost kept_self: { (s : Self) → kept s s };

    ghost kept_on: { (s t u : Self) → kept s t → kept t u → kept s u };
}

/// Writes all the bytes.
pub fn write_all<O: Sink>(out: &mut O, bytes: &[u8]) -> Result<(), Failed>
    ensures bytes { Puts (O.written out.old) (O.written out.new) result bytes.now }
    ensures cause { HasCause (O.fault_count out.old) (O.fault_count out.new) result }
    ensures kept { O.kept out.old out.new }
{
    let mut at = 0;
    while at < bytes.len() {
        at += out.write(&bytes[at..])?;
    }
    Ok(())
}
