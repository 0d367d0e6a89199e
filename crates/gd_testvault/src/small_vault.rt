//! A vault of one file.

ghost use Rattle.std.specs.Prelude.{◌≡◌, []};
ghost use Rattle.gd_vault.specs.Views.{View};
ghost use Rattle.gd_vault.specs.Views.Told.{Nothing};

use gd_base::{Failed, Name};
use gd_vault::{CreateError, FileId, Mode, Vault};

/// Each name stands for its file, which may be read, and written within its length; every other change fails. Its fields
/// are open, so that a test makes its calls fail from one on, or sees what was done.
#[derive(Drop)]
pub struct SmallVault {
    pub bytes: Vec<u8>,
    /// How many more reads and writes don't fail.
    pub calls_left: u64,
    /// The most bytes that a read gives.
    pub longest: usize,
    pub faults: u64,
    pub written: u64,
}

impl SmallVault {
    /// A vault of a file with these bytes, of whose reads and writes so many don't fail.
    pub fn new(bytes: Vec<u8>, calls_left: u64) -> SmallVault
        ensures { result ≡ record { bytes = bytes; calls_left = calls_left; longest = usize.MAX; faults = 0; written = 0 } }
    {
        SmallVault {
            bytes,
            calls_left,
            longest: usize::MAX,
            faults: 0,
            written: 0,
        }
    }
}

impl Vault for SmallVault {
    ghost view_of = { λ v. record { told = Nothing; faults = v.faults; bytes_written = v.written; clones = 0; reads = [] } };

    fn faults(&self) -> u64 {
        self.faults
    }

    fn moment(&self) -> u64 {
        0
    }

    fn lookup(&mut self, _name: &Name) -> Result<Option<FileId>, Failed> {
        Ok(Some(FileId(0)))
    }

    fn create(&mut self, _name: &Name, _mode: Mode) -> Result<FileId, CreateError> {
        Err(CreateError::Exists)
    }

    fn len(&mut self, _f: FileId) -> Result<u64, Failed> {
        Ok(self.bytes.len() as u64)
    }

    fn mode(&mut self, _f: FileId) -> Result<Mode, Failed> {
        Ok(Mode::Both)
    }

    fn stamp(&mut self, _f: FileId) -> Result<u64, Failed> {
        Ok(0)
    }

    fn read_at(&mut self, _f: FileId, at: u64, buf: &mut [u8]) -> Result<usize, Failed> {
        if self.calls_left == 0 {
            self.faults = self.faults.saturating_add(1);
            return Err(Failed);
        }
        self.calls_left -= 1;
        let bytes = self.bytes.as_slice();
        if at >= bytes.len() as u64 {
            return Ok(0);
        }
        let rest = &bytes[at as usize..];
        let n = rest.len().min(buf.len()).min(self.longest);
        buf[..n].copy_from_slice(&rest[..n]);
        Ok(n)
    }

    fn write_at(&mut self, _f: FileId, at: u64, bytes: &[u8]) -> Result<(), Failed> {
        let len = self.bytes.len();
        if self.calls_left == 0 || at > len as u64 || bytes.len() > len - at as usize {
            self.faults = self.faults.saturating_add(1);
            return Err(Failed);
        }
        self.calls_left -= 1;
        let at = at as usize;
        self.bytes[at..at + bytes.len()].copy_from_slice(bytes);
        self.written = self.written.saturating_add(bytes.len() as u64);
        Ok(())
    }

    fn truncate(&mut self, _f: FileId) -> Result<(), Failed> {
        self.faults = self.faults.saturating_add(1);
        Err(Failed)
    }

    fn clone_into(&mut self, _dst: FileId, _src: FileId, _stamp: u64) -> Result<(), Failed> {
        self.faults = self.faults.saturating_add(1);
        Err(Failed)
    }

    fn set_mode(&mut self, _f: FileId, _mode: Mode) -> Result<(), Failed> {
        self.faults = self.faults.saturating_add(1);
        Err(Failed)
    }

    fn sync(&mut self, _f: FileId) -> Result<(), Failed> {
        self.faults = self.faults.saturating_add(1);
        Err(Failed)
    }

    fn sync_names(&mut self) -> Result<(), Failed> {
        self.faults = self.faults.saturating_add(1);
        Err(Failed)
    }

    fn replace(&mut self, _from: &Name, _to: &Name) -> Result<(), Failed> {
        self.faults = self.faults.saturating_add(1);
        Err(Failed)
    }

    fn remove(&mut self, _name: &Name) -> Result<(), Failed> {
        self.faults = self.faults.saturating_add(1);
        Err(Failed)
    }
}
