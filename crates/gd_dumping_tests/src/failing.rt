//! A vault that fails, or whose file is cut.

ghost use Rattle.std.specs.Prelude.{◌≡◌, [], IfOk, IsErr};
ghost use Rattle.gd_base.specs.Causes.{HasCause};
ghost use Rattle.gd_vault.specs.Views.{View};
ghost use Rattle.gd_vault.specs.Views.Told.{Nothing};

use gd_base::{Failed, Name};
use gd_vault::{CreateError, FileId, Mode, Vault};

/// A vault that tells nothing. It fails from a call on, and its file is cut before a read.
#[derive(Drop)]
pub struct Failing {
    pub bytes: Vec<u8>,
    /// How many calls are answered.
    pub calls: u64,
    /// How many reads come before the cut.
    pub reads: u64,
    /// The length that is left.
    pub cut: usize,
    pub faults: u64,
}

impl Failing {
    fn answer<T: Drop>(&mut self, answer: T) -> Result<T, Failed>
        ensures same { IfOk result (λ x. x ≡ answer) }
        ensures cause { HasCause self.old.faults self.new.faults result }
    {
        if self.calls > 0 {
            self.calls -= 1;
            return Ok(answer);
        }
        self.fail()
    }

    fn fail<T: Drop>(&mut self) -> Result<T, Failed>
        ensures err { IsErr result }
        ensures cause { HasCause self.old.faults self.new.faults result }
    {
        self.faults = self.faults.saturating_add(1);
        Err(Failed)
    }
}

impl Vault for Failing {
    ghost view_of = { λ v. record { told = Nothing; faults = v.faults; bytes_written = 0; clones = 0; reads = [] } };

    fn faults(&self) -> u64 {
        self.faults
    }

    fn moment(&self) -> u64 {
        0
    }

    fn lookup(&mut self, _name: &Name) -> Result<Option<FileId>, Failed> {
        self.answer(Some(FileId(0)))
    }

    fn create(&mut self, _name: &Name, _mode: Mode) -> Result<FileId, CreateError> {
        match self.answer(FileId(0)) {
            Ok(f) => Ok(f),
            Err(Failed) => Err(CreateError::Failed),
        }
    }

    fn len(&mut self, _f: FileId) -> Result<u64, Failed> {
        let n = self.bytes.len() as u64;
        self.answer(n)
    }

    fn mode(&mut self, _f: FileId) -> Result<Mode, Failed> {
        self.answer(Mode::Both)
    }

    fn stamp(&mut self, _f: FileId) -> Result<u64, Failed> {
        self.answer(0)
    }

    fn read_at(&mut self, _f: FileId, at: u64, buf: &mut [u8]) -> Result<usize, Failed> {
        self.answer(())?;
        if self.reads == 0 {
            self.bytes.truncate(self.cut);
        }
        self.reads = self.reads.saturating_sub(1);
        let bytes = self.bytes.as_slice();
        if at >= bytes.len() as u64 {
            return Ok(0);
        }
        let rest = &bytes[at as usize..];
        let n = rest.len().min(buf.len());
        buf[..n].copy_from_slice(&rest[..n]);
        Ok(n)
    }

    fn write_at(&mut self, _f: FileId, _at: u64, _bytes: &[u8]) -> Result<(), Failed> {
        self.fail()
    }

    fn truncate(&mut self, _f: FileId) -> Result<(), Failed> {
        self.fail()
    }

    fn clone_into(&mut self, _dst: FileId, _src: FileId, _stamp: u64) -> Result<(), Failed> {
        self.fail()
    }

    fn set_mode(&mut self, _f: FileId, _mode: Mode) -> Result<(), Failed> {
        self.fail()
    }

    fn sync(&mut self, _f: FileId) -> Result<(), Failed> {
        self.fail()
    }

    fn sync_names(&mut self) -> Result<(), Failed> {
        self.fail()
    }

    fn replace(&mut self, _from: &Name, _to: &Name) -> Result<(), Failed> {
        self.fail()
    }

    fn remove(&mut self, _name: &Name) -> Result<(), Failed> {
        self.fail()
    }
}
