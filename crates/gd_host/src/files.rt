//! Reads and writes of an open file at places.

ghost use Rattle.std.specs.Prelude.{◌≤◌, ◌+◌, ◌^◌, length, IfOk, IsErr};

use std::fs::File;
use std::io::{self, ErrorKind};
use std::os::unix::fs::FileExt;

// One read, which is made again where a signal interrupts it.
fn read_some(file: &File, at: u64, buf: &mut [u8]) -> io::Result<usize>
    ensures { IfOk result (λ n. n ≤ length buf.new) }
{
    for _ in 0..u64::MAX {
        match file.read_at(buf, at) {
            Err(error) if error.kind() == ErrorKind::Interrupted => {}
            ended => return ended,
        }
    }
    Err(ErrorKind::Interrupted.into())
}

/// Reads until the buffer is full or the file ends.
pub fn fill(file: &File, at: u64, buf: &mut [u8]) -> io::Result<usize>
    ensures { IfOk result (λ n. n ≤ length buf.new) }
{
    let mut count = 0;
    while count < buf.len() {
        let Some(place) = at.checked_add(count as u64) else {
            return Ok(count);
        };
        if place > i64::MAX as u64 {
            return Ok(count);
        }
        match read_some(file, place, &mut buf[count..])? {
            0 => return Ok(count),
            n => count += n,
        }
    }
    Ok(count)
}

/// Writes the whole range, which ends at 2^63 - 1 or before. A write that a signal interrupts is made again, and a short one
/// goes on.
pub fn write_range(file: &File, at: u64, bytes: &[u8]) -> io::Result<()>
    ensures { 2 ^ 63 ≤ at + length bytes.now → IsErr result }
{
    if at > i64::MAX as u64 || bytes.len() as u64 > i64::MAX as u64 - at {
        return Err(ErrorKind::InvalidInput.into());
    }
    file.write_all_at(bytes, at)
}

/// Gives a file the bytes of another one.
pub fn copy_bytes(from: &File, to: &File) -> io::Result<()> {
    to.set_len(0)?;
    let mut block = [0u8; 65536];
    let mut at = 0u64;
    for _ in 0..u64::MAX {
        let count = read_some(from, at, &mut block)?;
        let Some(read) = block.get(..count) else {
            return Ok(());
        };
        if read.is_empty() {
            return Ok(());
        }
        write_range(to, at, read)?;
        at = at.saturating_add(count as u64);
    }
    Ok(())
}
