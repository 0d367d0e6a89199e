//! A sink over a writer of the host.

ghost use Rattle.std.specs.Prelude.{◌≤◌, ◌<◌, None, IfOk, length};

use gd_base::{Failed, Sink};
use std::io::{self, ErrorKind, Write};

/// Standard output or standard error. A write that takes nothing is a failure, as an error is; one that a signal interrupts
/// is made again.
#[derive(Drop)]
pub struct HostSink<W: Write> {
    inner: W,
    faults: u64,
}

// Writes some bytes, at least one.
fn write_some<W: Write>(inner: &mut W, bytes: &[u8]) -> io::Result<usize>
    ensures { IfOk result (λ n. (0 < n) × (n ≤ length bytes.now)) }
{
    for _ in 0..u64::MAX {
        match inner.write(bytes) {
            Ok(count) if count > 0 => return Ok(count),
            Ok(_) => return Err(ErrorKind::WriteZero.into()),
            Err(error) if error.kind() == ErrorKind::Interrupted => {}
            Err(error) => return Err(error),
        }
    }
    Err(ErrorKind::Interrupted.into())
}

impl<W: Write> HostSink<W> {
    pub fn new(inner: W) -> HostSink<W> {
        HostSink { inner, faults: 0 }
    }
}

impl<W: Write> Sink for HostSink<W> {
    ghost written = { λ _. None };

    ghost fault_count = { λ s. s.faults };

    ghost kept = { λ _ _. Unit {0} };

    fn faults(&self) -> u64 {
        self.faults
    }

    fn write(&mut self, bytes: &[u8]) -> Result<usize, Failed> {
        match write_some(&mut self.inner, bytes) {
            Ok(count) => Ok(count),
            Err(_) => {
                self.faults = self.faults.saturating_add(1);
                Err(Failed)
            }
        }
    }

    ghost kept_self = { λ _. tt };

    ghost kept_on = { λ _ _ _ _ _. tt };
}
