//! A call of a vault over the host's files, or of the host itself, as data.

use crate::calls::{Answer, create, done, find, is_file, is_so, len, mode, named, read, stamp};
use crate::many::{Round, renew_all, visit_all};
use crate::paths::{HostStep, do_host_step};
use gd_host::HostVault;
use gd_vault::{FileId, Mode, Vault};
use std::alloc::Global;
use std::test::Fail;

/// A file whose id is kept.
#[derive(Clone, Copy)]
pub enum File {
    F,
    G,
    /// The file with this id.
    Id(u64),
}

/// What is done.
#[derive(Clone, Copy)]
pub enum Step {
    Create(File, &'static str, Mode),
    /// Looks a name up, and keeps the id.
    Find(File, &'static str),
    /// Does the name stand for this file?
    Is(File, &'static str),
    Write(File, u64, &'static [u8]),
    /// Into a buffer of so many dots, with the bytes that come.
    Read(File, u64, usize, &'static [u8]),
    Truncate(File),
    Len(File, u64),
    Mode(File, Mode),
    Stamp(File, u64),
    SetMode(File, Mode),
    /// Into the first from the second, with a stamp.
    Clone(File, File, u64),
    Sync(File),
    SyncNames,
    /// The file of the first gets the second as its name.
    Replace(&'static str, &'static str),
    Remove(&'static str),
    /// Did so many calls fail since the last such step?
    Faults(u64),
    /// Does this with each of a hundred files.
    Each(Round),
    /// Makes the file `export` anew many times, and keeps the id of the last.
    Renew(File),
    Host(HostStep),
}

// The ids that are kept.
#[derive(Clone, Copy)]
struct Ids {
    f: FileId,
    g: FileId,
}

impl Ids {
    fn of(&self, file: File) -> FileId {
        match file {
            File::F => self.f,
            File::G => self.g,
            File::Id(id) => FileId(id),
        }
    }

    fn keep(&mut self, file: File, id: FileId) {
        match file {
            File::F => self.f = id,
            File::G => self.g = id,
            File::Id(_) => {}
        }
    }
}

/// A vault over the host's files, and ids of files.
#[derive(Drop)]
pub struct Stage<'a> {
    vault: HostVault<'a>,
    ids: Ids,
    faults: u64,
}

impl<'a> Stage<'a> {
    /// A vault in which nothing was called.
    pub fn new(rt: &'a HostRuntime, alloc: Global) -> Stage<'a> {
        Stage {
            vault: HostVault::new(rt, alloc),
            ids: Ids {
                f: FileId(77),
                g: FileId(77),
            },
            faults: 0,
        }
    }

    // Did so many calls fail since this was asked last?
    fn failed(&mut self, count: u64) -> Answer {
        let before = self.faults;
        self.faults = self.vault.faults();
        is_so(self.faults.wrapping_sub(before) == count)
    }

    fn create(
        &mut self,
        file: File,
        name: &str,
        mode: Mode,
        alloc: Global,
    ) -> Result<Answer, Fail> {
        let name = named(alloc, name)?;
        let mut id = self.ids.of(file);
        let answer = create(&mut self.vault, &mut id, &name, mode);
        self.ids.keep(file, id);
        Ok(answer)
    }

    fn find(&mut self, file: File, name: &str, alloc: Global) -> Result<Answer, Fail> {
        let name = named(alloc, name)?;
        let mut id = self.ids.of(file);
        let answer = find(&mut self.vault, &mut id, &name);
        self.ids.keep(file, id);
        Ok(answer)
    }

    fn renew(&mut self, file: File, alloc: Global) -> Result<Answer, Fail> {
        let mut id = self.ids.of(file);
        let answer = renew_all(&mut self.vault, alloc, &mut id)?;
        self.ids.keep(file, id);
        Ok(answer)
    }

    fn replace(&mut self, from: &str, to: &str, alloc: Global) -> Result<Answer, Fail> {
        let from = named(alloc, from)?;
        let to = named(alloc, to)?;
        Ok(done(self.vault.replace(&from, &to)))
    }

    /// Does a step, and answers what came of it.
    pub fn do_step(&mut self, rt: &HostRuntime, step: Step) -> Result<Answer, Fail> {
        let alloc = rt.alloc();
        Ok(match step {
            Step::Create(file, name, mode) => self.create(file, name, mode, alloc)?,
            Step::Find(file, name) => self.find(file, name, alloc)?,
            Step::Is(file, name) => {
                is_file(&mut self.vault, self.ids.of(file), &named(alloc, name)?)
            }
            Step::Write(file, at, bytes) => done(self.vault.write_at(self.ids.of(file), at, bytes)),
            Step::Read(file, at, size, bytes) => {
                read(&mut self.vault, self.ids.of(file), at, size, bytes)
            }
            Step::Truncate(file) => done(self.vault.truncate(self.ids.of(file))),
            Step::Len(file, n) => len(&mut self.vault, self.ids.of(file), n),
            Step::Mode(file, wanted) => mode(&mut self.vault, self.ids.of(file), wanted),
            Step::Stamp(file, n) => stamp(&mut self.vault, self.ids.of(file), n),
            Step::SetMode(file, new) => done(self.vault.set_mode(self.ids.of(file), new)),
            Step::Clone(dst, src, n) => {
                done(self.vault.clone_into(self.ids.of(dst), self.ids.of(src), n))
            }
            Step::Sync(file) => done(self.vault.sync(self.ids.of(file))),
            Step::SyncNames => done(self.vault.sync_names()),
            Step::Replace(from, to) => self.replace(from, to, alloc)?,
            Step::Remove(name) => done(self.vault.remove(&named(alloc, name)?)),
            Step::Faults(count) => self.failed(count),
            Step::Each(round) => visit_all(&mut self.vault, alloc, round)?,
            Step::Renew(file) => self.renew(file, alloc)?,
            Step::Host(step) => do_host_step(rt, step)?,
        })
    }
}
