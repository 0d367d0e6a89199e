//! The files of the host that have ids.

use crate::companion::Marks;
use crate::held::Held;
use crate::paths::Inode;
use gd_vault::FileId;
use std::alloc::Global;
use std::fs::File;
use std::io::{self, ErrorKind};

// How many files are open at the most.
const OPEN: usize = 64;

/// The files that were looked up or made, in the order of their ids. At most 64 of them are open; the one that was not used
/// for longest is closed first, and is opened again when it is used.
#[derive(Drop)]
pub struct Table {
    held: Vec<Held>,
    // The id of the next new file.
    next: u64,
    // The number of uses so far, and what it was at the last call on names.
    now: u64,
    names_at: u64,
}

impl Table {
    pub fn new(alloc: Global) -> Table {
        Table {
            held: Vec::new(alloc),
            next: 0,
            now: 0,
            names_at: 0,
        }
    }

    fn place(&self, f: FileId) -> io::Result<usize> {
        match self.held.iter().position(|h| h.id == f) {
            Some(place) => Ok(place),
            None => Err(ErrorKind::NotFound.into()),
        }
    }

    pub fn get(&self, f: FileId) -> io::Result<&Held> {
        match self.held.get(self.place(f)?) {
            Some(held) => Ok(held),
            None => Err(ErrorKind::NotFound.into()),
        }
    }

    fn get_mut(&mut self, f: FileId) -> io::Result<&mut Held> {
        let place = self.place(f)?;
        match self.held.get_mut(place) {
            Some(held) => Ok(held),
            None => Err(ErrorKind::NotFound.into()),
        }
    }

    /// The id of a file that has one, is open and has a name.
    pub fn find_ready(&self, inode: Inode) -> Option<FileId> {
        let f = self.find(inode)?;
        if self.get(f).ok()?.is_ready() {
            return Some(f);
        }
        None
    }

    /// The id of a file that has one.
    pub fn find(&self, inode: Inode) -> Option<FileId> {
        let place = self.held.iter().position(|h| h.inode == inode)?;
        Some(self.held.get(place)?.id)
    }

    /// The file with an id, which is used.
    pub fn used(&mut self, f: FileId) -> io::Result<&mut Held> {
        self.now = self.now.saturating_add(1);
        let now = self.now;
        let held = self.get_mut(f)?;
        held.note_use(now);
        Ok(held)
    }

    // The place of the open file that was not used for longest.
    fn oldest(&self) -> Option<usize> {
        let mut oldest: Option<(usize, u64)> = None;
        for (place, held) in self.held.iter().enumerate() {
            if held.is_open() && oldest.is_none_or(|(_, used)| held.used() < used) {
                oldest = Some((place, held.used()));
            }
        }
        Some(oldest?.0)
    }

    // Sees that one more file may be opened.
    fn make_room(&mut self) {
        if self.held.iter().filter(|h| h.is_open()).count() < OPEN {
            return;
        }
        if let Some(place) = self.oldest() {
            if let Some(held) = self.held.get_mut(place) {
                held.close();
            }
        }
    }

    /// The file with an id, which is open then, to write too if that is wanted.
    pub fn open(&mut self, rt: &HostRuntime, f: FileId, write: bool) -> io::Result<&mut Held> {
        if !self.get(f)?.is_open() {
            self.make_room();
        }
        let held = self.used(f)?;
        held.open(rt, write)?;
        Ok(held)
    }

    /// Takes a new file, and answers its id. An older file with its inode is none any more.
    pub fn add_new(&mut self, inode: Inode, name: String, file: File) -> io::Result<FileId> {
        self.forget(inode);
        self.add(inode, name, file, true)
    }

    fn add(
        &mut self,
        inode: Inode,
        name: String,
        file: File,
        is_writable: bool,
    ) -> io::Result<FileId> {
        self.make_room();
        let id = FileId(self.next);
        self.held
            .push(Held::new(id, inode, name, file, is_writable))?;
        self.next = self.next.wrapping_add(1);
        Ok(id)
    }

    fn forget(&mut self, inode: Inode) {
        if let Some(place) = self.held.iter().position(|h| h.inode == inode) {
            self.held.remove(place);
        }
    }

    /// Takes a file that was looked up, opened to read, and answers its id.
    pub fn add_found(
        &mut self,
        rt: &HostRuntime,
        inode: Inode,
        name: String,
        file: File,
    ) -> io::Result<FileId> {
        let Some(id) = self.find(inode) else {
            return self.add(inode, name, file, false);
        };
        self.make_room();
        let held = self.get_mut(id)?;
        held.adopt(file, false);
        if !held.has_name(rt) {
            held.set_name(name);
        }
        Ok(id)
    }

    /// Notes that a file, if it has an id, may have lost its name.
    pub fn lose_name(&mut self, rt: &HostRuntime, lost: Option<(FileId, Marks)>) {
        let Some((id, marks)) = lost else { return };
        if let Ok(held) = self.get_mut(id) {
            if !held.has_name(rt) {
                held.lose_name(marks);
            }
        }
    }

    /// Notes that a file, if it has an id, got another name, and whether a companion came with it.
    pub fn rename(&mut self, rt: &HostRuntime, inode: Inode, name: String, is_marked: bool) {
        let Some(id) = self.find(inode) else { return };
        if let Ok(held) = self.get_mut(id) {
            if !held.has_name(rt) {
                held.set_name(name);
                held.set_marked(is_marked);
            }
        }
    }

    /// Ends a call on names: a file that lost its last name, and was not used since the last such call, is given up, so that
    /// the host has its room again. A later call on it fails.
    pub fn end_names(&mut self) {
        let since = self.names_at;
        self.held.retain(|h| !h.is_given_up(since));
        self.names_at = self.now;
    }
}
