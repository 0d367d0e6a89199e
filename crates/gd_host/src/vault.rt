//! A vault over the files of the host.

ghost use Rattle.std.specs.Prelude.{◌≡◌, Ok, IfOk};
ghost use Rattle.gd_base.specs.Causes.{HasCause};
ghost use Rattle.gd_host.specs.Host.{untold};

use crate::host::Host;
use gd_base::{Failed, Name};
use gd_vault::{CreateError, FileId, Mode, Vault};
use std::alloc::Global;
use std::io;

/// The files of the host. A name is a path.
///
/// **Names.** A name stands for a regular file, also behind links, and the names of one file, as a link makes them, have one
/// id. There is no such file where a part of the path is missing, is a file itself, or has more than 255 bytes. What is no
/// regular file, or is a link that leads nowhere, is a failure of each call that names it, and stays as it is. A file that
/// can't be opened to read is a failure of `lookup` alone. A name that is replaced has to be the file itself and no link, and
/// two names of one file are not replaced by one another.
///
/// **Files.** A file is opened to read alone until it is first changed; then its name has to lead to the same file still. So
/// a file without leave to write is found at the first change, before a byte of it is another one. At most 64 files are open;
/// the one that was not used for longest is closed, and opened again by its name. A file that lost its last name is given up
/// once a call on names ends before which it was not used since the call on names before; calls on it fail from then on, and
/// also where it was closed to make room, since it has no name by which it could be opened again.
///
/// **Companions.** Mode and stamp of a file stand in the companion `NAME.mode`, which is read anew in each call. NAME is the
/// name by which the file was first looked up or made in this run; where it loses that one, the next by which it is looked
/// up, and until then they are kept in memory. The host's own permissions play no part. A companion of another form is a
/// failure of each call that would read it, move it or remove it, and stays as it is. A companion stands before its new
/// file, and moves and goes after its file. It is written beside itself first, under a name that is longer by 18 bytes: where
/// the host has no names so long, setting a mode or a stamp fails.
///
/// **Reads.** Small reads go through pages that are kept: what another program writes meanwhile may not be seen.
///
/// **Durability.** `sync` syncs the file, and the folder of its companion where that was written since. `sync_names` syncs the
/// folders in which names were made, replaced or removed. A folder that the host doesn't let be opened, or whose file system
/// doesn't sync folders, is passed over: then names, modes and stamps that were set may be lost in a crash, and a file's bytes not.
///
/// **Failures.** A call for which no memory is found fails. Of a failed call nothing is taken back, but for the companion of a
/// file that `create` could not make. The count of failures rises
/// by one in each failed call, and in no other.
#[derive(Drop)]
pub struct HostVault<'a> {
    host: Host<'a>,
    faults: u64,
    bytes_written: u64,
    clones: u64,
}

impl<'a> HostVault<'a> {
    pub fn new(rt: &'a HostRuntime, alloc: Global) -> HostVault<'a> {
        HostVault {
            host: Host::new(rt, alloc),
            faults: 0,
            bytes_written: 0,
            clones: 0,
        }
    }
}

impl HostVault<'_> {
    // What a call answers where the host's calls ended so. An error is counted.
    fn counted<T: Drop>(&mut self, ended: io::Result<T>) -> Result<T, Failed>
        ensures value { IfOk result (λ x. ended ≡ Ok x) }
        ensures cause { HasCause self.old.faults self.new.faults result }
        ensures counts { (self.new.bytes_written ≡ self.old.bytes_written) × (self.new.clones ≡ self.old.clones) }
    {
        match ended {
            Ok(answer) => Ok(answer),
            Err(_) => {
                self.faults = self.faults.saturating_add(1);
                Err(Failed)
            }
        }
    }
}

impl Vault for HostVault<'_> {
    ghost view_of = { λ v. untold v.faults v.bytes_written v.clones };

    fn faults(&self) -> u64 {
        self.faults
    }

    fn moment(&self) -> u64 {
        0
    }

    fn lookup(&mut self, name: &Name) -> Result<Option<FileId>, Failed> {
        let found = self.host.lookup(name.as_str());
        self.counted(found)
    }

    fn create(&mut self, name: &Name, mode: Mode) -> Result<FileId, CreateError> {
        match self.host.create(name.as_str(), mode) {
            Ok(Some(f)) => Ok(f),
            Ok(None) => Err(CreateError::Exists),
            Err(_) => {
                self.faults = self.faults.saturating_add(1);
                Err(CreateError::Failed)
            }
        }
    }

    fn len(&mut self, f: FileId) -> Result<u64, Failed> {
        let len = self.host.len(f);
        self.counted(len)
    }

    fn mode(&mut self, f: FileId) -> Result<Mode, Failed> {
        match self.host.marks(f) {
            Ok(marks) => Ok(marks.mode),
            Err(error) => self.counted(Err(error)),
        }
    }

    fn stamp(&mut self, f: FileId) -> Result<u64, Failed> {
        match self.host.marks(f) {
            Ok(marks) => Ok(marks.stamp),
            Err(error) => self.counted(Err(error)),
        }
    }

    fn read_at(&mut self, f: FileId, at: u64, buf: &mut [u8]) -> Result<usize, Failed> {
        let count = self.host.read(f, at, buf);
        self.counted(count)
    }

    fn write_at(&mut self, f: FileId, at: u64, bytes: &[u8]) -> Result<(), Failed> {
        match self.host.write(f, at, bytes) {
            Ok(()) => {
                self.bytes_written = self.bytes_written.saturating_add(bytes.len() as u64);
                Ok(())
            }
            Err(error) => self.counted(Err(error)),
        }
    }

    fn truncate(&mut self, f: FileId) -> Result<(), Failed> {
        let ended = self.host.empty(f);
        self.counted(ended)
    }

    fn clone_into(&mut self, dst: FileId, src: FileId, stamp: u64) -> Result<(), Failed> {
        match self.host.copy(dst, src, stamp) {
            Ok(()) => {
                self.clones = self.clones.saturating_add(1);
                Ok(())
            }
            Err(error) => self.counted(Err(error)),
        }
    }

    fn set_mode(&mut self, f: FileId, mode: Mode) -> Result<(), Failed> {
        let ended = self.host.set_mode(f, mode);
        self.counted(ended)
    }

    fn sync(&mut self, f: FileId) -> Result<(), Failed> {
        let ended = self.host.sync(f);
        self.counted(ended)
    }

    fn sync_names(&mut self) -> Result<(), Failed> {
        let ended = self.host.sync_names();
        self.counted(ended)
    }

    fn replace(&mut self, from: &Name, to: &Name) -> Result<(), Failed> {
        let ended = self.host.replace(from.as_str(), to.as_str());
        self.counted(ended)
    }

    fn remove(&mut self, name: &Name) -> Result<(), Failed> {
        let ended = self.host.remove(name.as_str());
        self.counted(ended)
    }
}
