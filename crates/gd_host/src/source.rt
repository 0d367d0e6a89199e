//! A source over a reader of the host.

ghost use Rattle.std.specs.Prelude.{◌≤◌, None, IfOk, length};

use gd_base::{Failed, Source};
use std::io::{self, ErrorKind, Read};

/// Standard input. A read that a signal interrupts is made again.
#[derive(Drop)]
pub struct HostSource<R: Read> {
    inner: R,
    faults: u64,
}

// Reads some bytes, or none at the end of the input.
fn read_some<R: Read>(inner: &mut R, buf: &mut [u8]) -> io::Result<usize>
    ensures { IfOk result (λ n. n ≤ length buf.new) }
{
    for _ in 0..u64::MAX {
        match inner.read(buf) {
            Err(error) if error.kind() == ErrorKind::Interrupted => {}
            ended => return ended,
        }
    }
    Err(ErrorKind::Interrupted.into())
}

impl<R: Read> HostSource<R> {
    pub fn new(inner: R) -> HostSource<R> {
        HostSource { inner, faults: 0 }
    }
}

impl<R: Read> Source for HostSource<R> {
    ghost left = { λ _. None };

    ghost fault_count = { λ s. s.faults };

    fn faults(&self) -> u64 {
        self.faults
    }

    fn read(&mut self, buf: &mut [u8]) -> Result<usize, Failed> {
        match read_some(&mut self.inner, buf) {
            Ok(count) => Ok(count),
            Err(_) => {
                self.faults = self.faults.saturating_add(1);
                Err(Failed)
            }
        }
    }
}
