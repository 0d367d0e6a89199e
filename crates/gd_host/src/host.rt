//! What a vault does with the files of the host. None of these functions counts.

ghost use Rattle.std.specs.Prelude.{◌≤◌, ◌+◌, ◌^◌, length, IfOk, IsErr};

use crate::companion::{Companion, Marks};
use crate::descriptors::StandIns;
use crate::files::{copy_bytes, fill, write_range};
use crate::pages::{PAGE, Pages, Text};
use crate::paths::{Inode, folder_of, is_file_itself, look, remove, sync_folder};
use crate::table::Table;
use gd_vault::{FileId, Mode};
use std::alloc::Global;
use std::fs::{self, File, OpenOptions};
use std::io::{self, ErrorKind};

/// The files of the host, with ids.
#[derive(Drop)]
pub struct Host<'a> {
    rt: &'a HostRuntime,
    alloc: Global,
    stand_ins: StandIns,
    table: Table,
    pages: Pages,
    // The folders whose names changed since they were synced.
    folders: Vec<String>,
}

impl<'a> Host<'a> {
    pub fn new(rt: &'a HostRuntime, alloc: Global) -> Host<'a> {
        Host {
            rt,
            alloc,
            stand_ins: StandIns::new(alloc),
            table: Table::new(alloc),
            pages: Pages::new(alloc),
            folders: Vec::new(alloc),
        }
    }

    // Notes that a name changed.
    fn note_name(&mut self, name: &str) -> io::Result<()> {
        let folder = folder_of(name);
        if self.folders.iter().any(|f| f.as_str() == folder) {
            return Ok(());
        }
        let folder = String::from_str(self.alloc, folder)?;
        self.folders.push(folder)?;
        Ok(())
    }

    /// The file for which a name stands.
    pub fn lookup(&mut self, name: &str) -> io::Result<Option<FileId>> {
        let found = self.find(name);
        self.table.end_names();
        found
    }

    fn find(&mut self, name: &str) -> io::Result<Option<FileId>> {
        self.stand_ins.fill(self.rt)?;
        let Some(data) = look(self.rt, name)? else {
            return Ok(None);
        };
        if let Some(f) = self.table.find_ready(Inode::of(&data)) {
            return Ok(Some(f));
        }
        Ok(Some(self.open_found(name)?))
    }

    fn open_found(&mut self, name: &str) -> io::Result<FileId> {
        let file = File::open(self.rt, name)?;
        let data = file.metadata()?;
        if !data.is_file() {
            return Err(ErrorKind::InvalidInput.into());
        }
        let name = String::from_str(self.alloc, name)?;
        self.table.add_found(self.rt, Inode::of(&data), name, file)
    }

    /// Makes an empty file, or answers None where the name stands for a file.
    pub fn create(&mut self, name: &str, mode: Mode) -> io::Result<Option<FileId>> {
        let made = self.make(name, mode);
        self.table.end_names();
        made
    }

    fn make(&mut self, name: &str, mode: Mode) -> io::Result<Option<FileId>> {
        self.stand_ins.fill(self.rt)?;
        if look(self.rt, name)?.is_some() {
            return Ok(None);
        }
        let companion = Companion::of(self.alloc, name)?;
        companion.read(self.rt)?;
        let kept = String::from_str(self.alloc, name)?;
        self.note_name(name)?;
        companion.begin(self.rt, self.alloc, mode)?;
        let file = self.make_file(name, &companion)?;
        let inode = Inode::of(&file.metadata()?);
        let f = self.table.add_new(inode, kept, file)?;
        self.table.used(f)?.set_marked(mode != Mode::Both);
        Ok(Some(f))
    }

    // The new file of a name for which nothing stands. Where it can't be made its companion goes.
    fn make_file(&self, name: &str, companion: &Companion) -> io::Result<File> {
        let made = OpenOptions::new()
            .read(true)
            .write(true)
            .create_new(true)
            .open(self.rt, name);
        if made.is_err() {
            companion.remove(self.rt)?;
        }
        made
    }

    pub fn len(&mut self, f: FileId) -> io::Result<u64> {
        let held = self.table.open(self.rt, f, false)?;
        Ok(held.metadata()?.len())
    }

    pub fn marks(&mut self, f: FileId) -> io::Result<Marks> {
        self.table.used(f)?.marks(self.rt, self.alloc)
    }

    fn mark(&mut self, f: FileId, marks: Marks) -> io::Result<()> {
        self.table.used(f)?.mark(self.rt, self.alloc, marks)
    }

    /// Reads as many bytes as there are. A read of less than a page lies in two pages at the most.
    pub fn read(&mut self, f: FileId, at: u64, buf: &mut [u8]) -> io::Result<usize>
        ensures { IfOk result (λ n. n ≤ length buf.new) }
    {
        let held = self.table.open(self.rt, f, false)?;
        let file = held.file()?;
        if buf.len() >= PAGE {
            return fill(file, at, buf);
        }
        let text = Text {
            file: f.0,
            changes: held.changes(),
        };
        let first = self.pages.copy(file, text, at, buf)?;
        let Some(next) = at.checked_add(first as u64) else {
            return Ok(first);
        };
        if first == 0 || first == buf.len() {
            return Ok(first);
        }
        let second = self.pages.copy(file, text, next, &mut buf[first..])?;
        Ok(first + second)
    }

    /// Writes all the bytes. A write past the longest length fails, on every host.
    pub fn write(&mut self, f: FileId, at: u64, bytes: &[u8]) -> io::Result<()>
        ensures { 2 ^ 63 ≤ at + length bytes.now → IsErr result }
    {
        let held = self.table.open(self.rt, f, true)?;
        held.note_change();
        write_range(held.file()?, at, bytes)
    }

    pub fn empty(&mut self, f: FileId) -> io::Result<()> {
        let held = self.table.open(self.rt, f, true)?;
        held.note_change();
        held.file()?.set_len(0)
    }

    /// Gives a file the bytes of another one, and a stamp.
    pub fn copy(&mut self, dst: FileId, src: FileId, stamp: u64) -> io::Result<()> {
        let marks = self.marks(dst)?;
        if dst != src {
            self.table.open(self.rt, src, false)?;
            self.table.open(self.rt, dst, true)?.note_change();
            copy_bytes(self.table.get(src)?.file()?, self.table.get(dst)?.file()?)?;
        }
        self.mark(dst, Marks { stamp, ..marks })
    }

    pub fn set_mode(&mut self, f: FileId, mode: Mode) -> io::Result<()> {
        let marks = self.marks(f)?;
        self.mark(f, Marks { mode, ..marks })
    }

    /// Syncs a file, and the folder in which its companion was renamed.
    pub fn sync(&mut self, f: FileId) -> io::Result<()> {
        let held = self.table.open(self.rt, f, false)?;
        held.file()?.sync_all()?;
        if held.is_marked() {
            sync_folder(self.rt, folder_of(held.name()?))?;
            held.set_marked(false);
        }
        Ok(())
    }

    /// Syncs the folders in which names were made, moved or removed.
    pub fn sync_names(&mut self) -> io::Result<()> {
        for folder in &self.folders {
            sync_folder(self.rt, folder)?;
        }
        self.folders.clear();
        Ok(())
    }

    // The id of a file that may be there, and its marks.
    fn marks_of(&self, inode: Option<Inode>) -> io::Result<Option<(FileId, Marks)>> {
        let Some(f) = inode.and_then(|inode| self.table.find(inode)) else {
            return Ok(None);
        };
        let marks = self.table.get(f)?.marks(self.rt, self.alloc)?;
        Ok(Some((f, marks)))
    }

    // The file that a name is to lose, which may not stand behind a link.
    fn movable(&self, name: &str) -> io::Result<Inode> {
        match look(self.rt, name)? {
            Some(data) if is_file_itself(self.rt, name)? => Ok(Inode::of(&data)),
            _ => Err(ErrorKind::InvalidInput.into()),
        }
    }

    fn inode_at(&self, name: &str) -> io::Result<Option<Inode>> {
        Ok(look(self.rt, name)?.map(|data| Inode::of(&data)))
    }

    /// Gives a file another name, and moves its companion with it.
    pub fn replace(&mut self, from: &str, to: &str) -> io::Result<()> {
        let moved = self.rename(from, to);
        self.table.end_names();
        moved
    }

    fn rename(&mut self, from: &str, to: &str) -> io::Result<()> {
        if from == to {
            return Ok(());
        }
        self.stand_ins.fill(self.rt)?;
        let moved = self.movable(from)?;
        let over = self.inode_at(to)?;
        if over == Some(moved) {
            return Err(ErrorKind::InvalidInput.into());
        }
        let old = Companion::of(self.alloc, from)?;
        let new = Companion::of(self.alloc, to)?;
        let says = old.read(self.rt)?;
        new.read(self.rt)?;
        let lost = self.marks_of(over)?;
        let name = String::from_str(self.alloc, to)?;
        self.note_name(from)?;
        self.note_name(to)?;
        fs::rename(self.rt, from, to)?;
        self.table.lose_name(self.rt, lost);
        self.table.rename(self.rt, moved, name, says.is_some());
        old.rename(self.rt, says, &new)
    }

    /// Removes a name that may be absent, and its companion.
    pub fn remove(&mut self, name: &str) -> io::Result<()> {
        let removed = self.unlink(name);
        self.table.end_names();
        removed
    }

    fn unlink(&mut self, name: &str) -> io::Result<()> {
        self.stand_ins.fill(self.rt)?;
        let there = self.inode_at(name)?;
        let companion = Companion::of(self.alloc, name)?;
        companion.read(self.rt)?;
        let lost = self.marks_of(there)?;
        self.note_name(name)?;
        remove(self.rt, name)?;
        self.table.lose_name(self.rt, lost);
        companion.remove(self.rt)
    }
}
