//! What stands at the paths of the host.

use std::fs::{self, File, Metadata};
use std::io::{self, ErrorKind};
use std::os::unix::fs::MetadataExt;

/// What tells a file of the host from all others that are there.
#[derive(Clone, Copy, Debug, PartialEq, Eq)]
pub struct Inode {
    device: u64,
    number: u64,
}

impl Inode {
    pub fn of(data: &Metadata) -> Inode {
        Inode {
            device: data.dev(),
            number: data.ino(),
        }
    }
}

// There is no such name, a part of the path before its last one is a file, or a part is longer than a name of the host.
fn says_absent(error: &io::Error) -> bool {
    matches!(
        error.kind(),
        ErrorKind::NotFound | ErrorKind::NotADirectory | ErrorKind::InvalidFilename
    )
}

// Nothing stands at a path, not even a link that leads nowhere.
fn nothing(rt: &HostRuntime, path: &str) -> io::Result<Option<Metadata>> {
    match fs::symlink_metadata(rt, path) {
        Ok(_) => Err(ErrorKind::InvalidInput.into()),
        Err(error) if says_absent(&error) => Ok(None),
        Err(error) => Err(error),
    }
}

/// The regular file at a path, behind links too, or that nothing is there. Anything else is an error, and is not opened:
/// to open a pipe would wait for its writer.
pub fn look(rt: &HostRuntime, path: &str) -> io::Result<Option<Metadata>> {
    match fs::metadata(rt, path) {
        Ok(data) if data.is_file() => Ok(Some(data)),
        Ok(_) => Err(ErrorKind::InvalidInput.into()),
        Err(error) if says_absent(&error) => nothing(rt, path),
        Err(error) => Err(error),
    }
}

/// Whether a path leads to a file.
pub fn leads_to(rt: &HostRuntime, path: &str, inode: Inode) -> bool {
    fs::metadata(rt, path).is_ok_and(|data| Inode::of(&data) == inode)
}

/// Whether the file stands at the path itself, and not behind a link.
pub fn is_file_itself(rt: &HostRuntime, path: &str) -> io::Result<bool> {
    Ok(fs::symlink_metadata(rt, path)?.is_file())
}

/// Removes a file that may be absent.
pub fn remove(rt: &HostRuntime, path: &str) -> io::Result<()> {
    match fs::remove_file(rt, path) {
        Err(error) if !says_absent(&error) => Err(error),
        _ => Ok(()),
    }
}

/// The folder in which a path ends.
pub fn folder_of(path: &str) -> &str {
    match path.rsplit_once('/') {
        Some(("", _)) => "/",
        Some((folder, _)) => folder,
        None => ".",
    }
}

// The host doesn't let a folder be read, or its file system doesn't sync folders.
fn is_refusal(error: &io::Error) -> bool {
    matches!(
        error.kind(),
        ErrorKind::NotFound
            | ErrorKind::PermissionDenied
            | ErrorKind::ReadOnlyFilesystem
            | ErrorKind::InvalidInput
            | ErrorKind::Unsupported
    )
}

fn try_sync_folder(rt: &HostRuntime, folder: &str) -> io::Result<()> {
    File::open(rt, folder)?.sync_all()
}

/// Syncs the names of a folder, where the host allows that.
pub fn sync_folder(rt: &HostRuntime, folder: &str) -> io::Result<()> {
    match try_sync_folder(rt, folder) {
        Err(error) if !is_refusal(&error) => Err(error),
        _ => Ok(()),
    }
}
