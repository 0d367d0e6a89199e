//! Calls of a vault over the host's files, by names.

use gd_base::{Failed, Name};
use gd_host::HostVault;
use gd_vault::{CreateError, FileId, Mode, Vault};
use std::alloc::Global;
use std::test::Fail;

/// What came of a step.
#[derive(Clone, Copy, Debug, PartialEq, Eq)]
pub enum Answer {
    Done,
    Exists,
    Failed,
    /// It is so.
    Yes,
    No,
    /// The name stands for no file.
    Absent,
}

/// A name of a file.
pub fn named(alloc: Global, text: &str) -> Result<Name, Fail> {
    Ok(Name::new(alloc, text)?)
}

/// What a call came to.
pub fn done(ended: Result<(), Failed>) -> Answer {
    match ended {
        Ok(()) => Answer::Done,
        Err(Failed) => Answer::Failed,
    }
}

/// Is it so?
pub fn is_so(holds: bool) -> Answer {
    if holds { Answer::Yes } else { Answer::No }
}

/// Makes a file, and keeps its id.
pub fn create(vault: &mut HostVault<'_>, file: &mut FileId, name: &Name, mode: Mode) -> Answer {
    match vault.create(name, mode) {
        Ok(f) => {
            *file = f;
            Answer::Done
        }
        Err(CreateError::Exists) => Answer::Exists,
        Err(CreateError::Failed) => Answer::Failed,
    }
}

/// Looks a name up, and keeps the id of its file.
pub fn find(vault: &mut HostVault<'_>, file: &mut FileId, name: &Name) -> Answer {
    match vault.lookup(name) {
        Ok(Some(f)) => {
            *file = f;
            Answer::Done
        }
        Ok(None) => Answer::Absent,
        Err(Failed) => Answer::Failed,
    }
}

/// Does the name stand for this file?
pub fn is_file(vault: &mut HostVault<'_>, file: FileId, name: &Name) -> Answer {
    match vault.lookup(name) {
        Ok(Some(f)) => is_so(f == file),
        Ok(None) => Answer::Absent,
        Err(Failed) => Answer::Failed,
    }
}

/// Reads into a buffer of eight dots, or of its first `size`. Does exactly this come?
pub fn read(vault: &mut HostVault<'_>, file: FileId, at: u64, size: usize, bytes: &[u8]) -> Answer {
    let mut buf = [b'.'; 8];
    let Some(front) = buf.get_mut(..size) else {
        return Answer::No;
    };
    match vault.read_at(file, at, front) {
        Ok(count) => is_so(count == bytes.len() && is_front(&buf, bytes)),
        Err(Failed) => Answer::Failed,
    }
}

// Do the bytes stand at the front of a buffer of dots?
fn is_front(buf: &[u8; 8], bytes: &[u8]) -> bool {
    match (buf.get(..bytes.len()), buf.get(bytes.len()..)) {
        (Some(front), Some(rest)) => front == bytes && rest.iter().all(|b| *b == b'.'),
        _ => false,
    }
}

/// Is this the length?
pub fn len(vault: &mut HostVault<'_>, file: FileId, len: u64) -> Answer {
    match vault.len(file) {
        Ok(n) => is_so(n == len),
        Err(Failed) => Answer::Failed,
    }
}

/// Is this the mode?
pub fn mode(vault: &mut HostVault<'_>, file: FileId, mode: Mode) -> Answer {
    match vault.mode(file) {
        Ok(m) => is_so(m == mode),
        Err(Failed) => Answer::Failed,
    }
}

/// Is this the stamp?
pub fn stamp(vault: &mut HostVault<'_>, file: FileId, stamp: u64) -> Answer {
    match vault.stamp(file) {
        Ok(n) => is_so(n == stamp),
        Err(Failed) => Answer::Failed,
    }
}
