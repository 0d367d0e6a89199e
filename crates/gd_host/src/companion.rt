//! The companion of a file, which keeps its mode and its stamp.

use crate::files::{fill, write_range};
use crate::paths::{look, remove};
use gd_vault::Mode;
use std::alloc::Global;
use std::fs::{self, File, OpenOptions};
use std::io::{self, ErrorKind};

/// The mode and the stamp of a file.
#[derive(Clone, Copy, Debug, PartialEq, Eq)]
pub struct Marks {
    pub mode: Mode,
    pub stamp: u64,
}

/// What a file without a companion has.
pub const PLAIN: Marks = Marks {
    mode: Mode::Both,
    stamp: 0,
};

// A line has at most a letter, a space, 20 digits and a line feed.
const LONGEST: usize = 23;

fn letter_of(mode: Mode) -> char {
    match mode {
        Mode::ReadOnly => 'r',
        Mode::WriteOnly => 'w',
        Mode::Both => 'b',
    }
}

fn mode_of(letter: u8) -> Option<Mode> {
    match letter {
        b'r' => Some(Mode::ReadOnly),
        b'w' => Some(Mode::WriteOnly),
        b'b' => Some(Mode::Both),
        _ => None,
    }
}

// The number that decimal digits are, without a leading zero.
fn number_of(digits: &[u8]) -> Option<u64> {
    let text = str::from_utf8(digits).ok()?;
    let number: u64 = text.parse().ok()?;
    if digits.first() == Some(&b'+') || (digits.len() > 1 && digits.first() == Some(&b'0')) {
        return None;
    }
    Some(number)
}

// What a line says.
fn marks_of(line: &[u8]) -> Option<Marks> {
    let (letter, rest) = line.split_first()?;
    let mode = mode_of(*letter)?;
    let rest = rest.strip_prefix(b" ".as_slice())?;
    let digits = rest.strip_suffix(b"\n".as_slice())?;
    let stamp = number_of(digits)?;
    Some(Marks { mode, stamp })
}

fn read_line(file: &File) -> io::Result<Marks> {
    let mut line = [0u8; LONGEST + 1];
    let count = fill(file, 0, &mut line)?;
    let Some(read) = line.get(..count) else {
        return Err(ErrorKind::InvalidData.into());
    };
    marks_of(read).ok_or(ErrorKind::InvalidData.into())
}

// Writes a file that is not there yet, and makes its bytes durable.
fn write_new(rt: &HostRuntime, path: &str, text: &str) -> io::Result<()> {
    let file = OpenOptions::new()
        .write(true)
        .create_new(true)
        .open(rt, path)?;
    write_range(&file, 0, text.as_bytes())?;
    file.sync_all()
}

/// The companion of the file NAME is the file `NAME.mode`. It holds one line: `r`, `w` or `b` for ReadOnly, WriteOnly and
/// Both, one space, the stamp in decimal, and a line feed. What is no regular file of this form is somebody else's: it is
/// an error, and stays as it is.
#[derive(Drop)]
pub struct Companion {
    path: String,
    // Where a new line is written before it takes the place of the old one.
    scratch: String,
}

impl Companion {
    /// The companion of a name. There may be no such file.
    pub fn of(alloc: Global, name: &str) -> io::Result<Companion> {
        let path = format!(in alloc; "{name}.mode")?;
        let scratch = format!(in alloc; "{path}.gdbm-scratch")?;
        Ok(Companion { path, scratch })
    }

    /// What the companion says, or that there is none.
    pub fn read(&self, rt: &HostRuntime) -> io::Result<Option<Marks>> {
        if look(rt, self.path.as_str())?.is_none() {
            return Ok(None);
        }
        let file = File::open(rt, self.path.as_str())?;
        Ok(Some(read_line(&file)?))
    }

    /// Writes the companion: a new file, which takes the place of the old one when it is whole and durable, so that a killed
    /// program leaves the old line or the new one. What an earlier program left of a new file is removed.
    pub fn write(&self, rt: &HostRuntime, alloc: Global, marks: Marks) -> io::Result<()> {
        let line = format!(in alloc; "{} {}\n", letter_of(marks.mode), marks.stamp)?;
        remove(rt, self.scratch.as_str())?;
        write_new(rt, self.scratch.as_str(), line.as_str())?;
        fs::rename(rt, self.scratch.as_str(), self.path.as_str())
    }

    /// Puts there what a new file with a mode has.
    pub fn begin(&self, rt: &HostRuntime, alloc: Global, mode: Mode) -> io::Result<()> {
        match mode {
            Mode::Both => self.remove(rt),
            mode => self.write(rt, alloc, Marks { mode, stamp: 0 }),
        }
    }

    /// Removes the companion, and what a killed program left of a new one.
    pub fn remove(&self, rt: &HostRuntime) -> io::Result<()> {
        remove(rt, self.scratch.as_str())?;
        remove(rt, self.path.as_str())
    }

    /// Moves the companion with what it says to another name, or where there is none removes the one of that name.
    pub fn rename(&self, rt: &HostRuntime, says: Option<Marks>, to: &Companion) -> io::Result<()> {
        remove(rt, self.scratch.as_str())?;
        match says {
            Some(_) => fs::rename(rt, self.path.as_str(), to.path.as_str()),
            None => to.remove(rt),
        }
    }
}
