//! A file of the host that has an id.

use crate::companion::{Companion, Marks, PLAIN};
use crate::paths::{Inode, leads_to, look};
use gd_vault::FileId;
use std::alloc::Global;
use std::fs::{File, Metadata, OpenOptions};
use std::io::{self, ErrorKind};
use std::os::unix::fs::MetadataExt;

// An open file, to read alone or to write too.
#[derive(Drop)]
struct Handle {
    file: File,
    is_writable: bool,
}

// What is known of a file's name.
#[derive(Drop)]
enum Naming {
    // The name by which it was first looked up or made in this run. Its companion stands beside that.
    Named(String),
    // The name was replaced or removed. Mode and stamp are kept here.
    Lost(Marks),
}

/// A file that was looked up or made.
#[derive(Drop)]
pub struct Held {
    pub id: FileId,
    pub inode: Inode,
    // How often its bytes were changed, or may have been changed unseen.
    changes: u64,
    naming: Naming,
    handle: Option<Handle>,
    // When it was last used.
    used: u64,
    // Whether its companion was written since it was synced.
    is_marked: bool,
}

// Opens the file with a name, which is to be the one that is meant.
fn open_again(rt: &HostRuntime, name: &str, inode: Inode, write: bool) -> io::Result<File> {
    if look(rt, name)?.is_none() {
        return Err(ErrorKind::NotFound.into());
    }
    let file = OpenOptions::new().read(true).write(write).open(rt, name)?;
    if Inode::of(&file.metadata()?) != inode {
        return Err(ErrorKind::NotFound.into());
    }
    Ok(file)
}

impl Held {
    /// A file that has just been opened.
    pub fn new(id: FileId, inode: Inode, name: String, file: File, is_writable: bool) -> Held {
        Held {
            id,
            inode,
            changes: 0,
            naming: Naming::Named(name),
            handle: Some(Handle { file, is_writable }),
            used: 0,
            is_marked: false,
        }
    }

    pub fn is_open(&self) -> bool {
        self.handle.is_some()
    }

    /// When it was last used.
    pub fn used(&self) -> u64 {
        self.used
    }

    pub fn name(&self) -> io::Result<&str> {
        match &self.naming {
            Naming::Named(name) => Ok(name.as_str()),
            Naming::Lost(_) => Err(ErrorKind::NotFound.into()),
        }
    }

    /// Whether it is open and has a name.
    pub fn is_ready(&self) -> bool {
        self.is_open() && matches!(&self.naming, Naming::Named(_))
    }

    // Whether the host has a name of it.
    fn is_linked(&self) -> bool {
        self.metadata().is_ok_and(|data| data.nlink() > 0)
    }

    /// Whether it lost its name, has no other one, and was not used since this time.
    pub fn is_given_up(&self, since: u64) -> bool {
        match &self.naming {
            Naming::Named(_) => false,
            Naming::Lost(_) => self.used <= since && !self.is_linked(),
        }
    }

    pub fn file(&self) -> io::Result<&File> {
        match &self.handle {
            Some(handle) => Ok(&handle.file),
            None => Err(ErrorKind::NotFound.into()),
        }
    }

    pub fn metadata(&self) -> io::Result<Metadata> {
        self.file()?.metadata()
    }

    fn can(&self, write: bool) -> bool {
        match &self.handle {
            Some(handle) => handle.is_writable || !write,
            None => false,
        }
    }

    /// Closes it. It is opened again when it is used.
    pub fn close(&mut self) {
        self.handle = None;
    }

    /// Notes that it is used at this time.
    pub fn note_use(&mut self, now: u64) {
        self.used = now;
    }

    /// How often its bytes were changed, or may have been changed unseen.
    pub fn changes(&self) -> u64 {
        self.changes
    }

    /// Notes that its bytes are to be changed.
    pub fn note_change(&mut self) {
        self.changes = self.changes.wrapping_add(1);
    }

    /// Sees that it is open, to write too if that is wanted. What its name leads to has to be this file.
    pub fn open(&mut self, rt: &HostRuntime, write: bool) -> io::Result<()> {
        if self.can(write) {
            return Ok(());
        }
        let file = open_again(rt, self.name()?, self.inode, write)?;
        self.adopt(file, write);
        Ok(())
    }

    /// Takes an open file that is this one.
    pub fn adopt(&mut self, file: File, is_writable: bool) {
        if self.handle.is_none() {
            self.note_change();
        }
        self.handle = Some(Handle { file, is_writable });
    }

    /// Whether its name leads to it.
    pub fn has_name(&self, rt: &HostRuntime) -> bool {
        match &self.naming {
            Naming::Named(name) => leads_to(rt, name.as_str(), self.inode),
            Naming::Lost(_) => false,
        }
    }

    pub fn set_name(&mut self, name: String) {
        self.naming = Naming::Named(name);
    }

    /// Notes that it has no name any more, and what its mode and its stamp are.
    pub fn lose_name(&mut self, marks: Marks) {
        self.naming = Naming::Lost(marks);
        self.is_marked = false;
    }

    /// Its mode and its stamp.
    pub fn marks(&self, rt: &HostRuntime, alloc: Global) -> io::Result<Marks> {
        match &self.naming {
            Naming::Named(name) => {
                let marks = Companion::of(alloc, name.as_str())?.read(rt)?;
                Ok(marks.unwrap_or(PLAIN))
            }
            Naming::Lost(marks) => Ok(*marks),
        }
    }

    /// Gives it a mode and a stamp.
    pub fn mark(&mut self, rt: &HostRuntime, alloc: Global, new: Marks) -> io::Result<()> {
        match &mut self.naming {
            Naming::Named(name) => {
                Companion::of(alloc, name.as_str())?.write(rt, alloc, new)?;
                self.is_marked = true;
            }
            Naming::Lost(marks) => *marks = new,
        }
        Ok(())
    }

    pub fn is_marked(&self) -> bool {
        self.is_marked
    }

    /// Notes whether its companion was written since it was synced.
    pub fn set_marked(&mut self, is_marked: bool) {
        self.is_marked = is_marked;
    }
}
