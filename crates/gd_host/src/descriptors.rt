//! The numbers of the standard streams.

use std::alloc::Global;
use std::fs::{File, OpenOptions};
use std::io;
use std::os::fd::{AsFd, AsRawFd};

const NULL_DEVICE: &str = "/dev/null";

/// What stands in for the standard streams that were closed when the program began. While it is there no file that is
/// opened has one of their numbers, so that nothing that is printed gets into a database, and no database is read as input.
#[derive(Drop)]
pub struct StandIns {
    files: Vec<File>,
    are_filled: bool,
}

// The null device at the lowest free number, where that is one of a standard stream. It is opened so that what the program
// does with that stream fails as it would fail with the closed one.
fn stand_in(rt: &HostRuntime) -> io::Result<Option<File>> {
    let output = OpenOptions::new().read(true).open(rt, NULL_DEVICE)?;
    match output.as_raw_fd() {
        0 => {
            drop(output);
            let input = OpenOptions::new().write(true).open(rt, NULL_DEVICE)?;
            Ok(Some(input))
        }
        1 | 2 => Ok(Some(output)),
        _ => Ok(None),
    }
}

// Whether each standard stream is open, which its copy tells.
fn are_open(rt: &HostRuntime) -> bool {
    rt.stdin().as_fd().try_clone_to_owned().is_ok()
        && rt.stdout().as_fd().try_clone_to_owned().is_ok()
        && rt.stderr().as_fd().try_clone_to_owned().is_ok()
}

impl StandIns {
    pub fn new(alloc: Global) -> StandIns {
        StandIns {
            files: Vec::new(alloc),
            are_filled: false,
        }
    }

    /// Takes the numbers of the closed standard streams, if that is not done yet. Where the null device can't be opened that is
    /// a failure only if there is such a stream.
    pub fn fill(&mut self, rt: &HostRuntime) -> io::Result<()> {
        if self.are_filled {
            return Ok(());
        }
        match self.take_numbers(rt) {
            Err(error) if !are_open(rt) => Err(error),
            _ => {
                self.are_filled = true;
                Ok(())
            }
        }
    }

    // A file gets the lowest free number, so none is left where the null device gets another one.
    fn take_numbers(&mut self, rt: &HostRuntime) -> io::Result<()> {
        for _ in 0..3 {
            match stand_in(rt)? {
                Some(file) => self.files.push(file)?,
                None => break,
            }
        }
        Ok(())
    }
}
