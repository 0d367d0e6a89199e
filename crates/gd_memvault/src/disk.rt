//! The names and the files of a vault in memory.

ghost use Rattle.std.specs.Prelude.{◌≡◌, ◌≢◌, None, Some, ◌+◌, ◌<◌, ◌≤◌, ◌⊎◌, ◌++◌, ◌∷◌, ◌^◌, List, drop, false, [], ℕ, length, slice_get, bytes_eq, if◌then◌else◌, option_map, IfOk, OnErr, OnOk};
ghost use Rattle.gd_vault.specs.Content.{File};
ghost use Rattle.gd_vault.specs.Effects.{Changes, Does};
ghost use Rattle.gd_vault.specs.Events.Call.{Create, Write, Truncate, Clone_into, Set_mode, Sync, Sync_names, Replace, Remove};
ghost use Rattle.gd_vault.specs.Changes.{event};
ghost use Rattle.gd_memvault.specs.Image.{FileSteps, NameSteps, Runs, RunsNames, Steps};
ghost use Rattle.gd_memvault.specs.Disk.{AddsFile, CanDo, call_of, disk_content, names_of};

use crate::choices::Choices;
use crate::files::FileData;
use crate::steps::Step;
use gd_base::{Datum, OutOfMemory};
use gd_vault::Mode;
use std::alloc::Global;
use std::marker::Model;

/// For which file a name stands from here on, if any.
#[derive(Debug, Drop)]
pub struct NameEntry {
    pub name: Datum,
    pub id: Option<u64>,
}

/// The names, of which the last entry of a name counts, and the files by their ids.
#[derive(Debug, Drop)]
pub struct Disk {
    names: Vec<NameEntry>,
    files: Vec<FileData>,
}

impl Model for Disk {
    ghost use Rattle.gd_memvault.specs.DiskData.{DiskData};

    ghost Value = { DiskData };

    ghost view = { λ d. record { names = d.names.items; files = d.files.items } };
}

fn copy_names(names: &[NameEntry], alloc: Global) -> Result<Vec<NameEntry>, OutOfMemory>
    ensures { IfOk result (λ v. v.items ≡ names.now) }
{
    let mut copies = Vec::new(alloc);
    for entry in names {
        let name = Datum::from_slice(alloc, entry.name.as_slice())?;
        let copy = NameEntry { name, id: entry.id };
        if copies.push(copy).is_err() {
            return Err(OutOfMemory);
        }
    }
    Ok(copies)
}

fn copy_files(files: &[FileData], alloc: Global) -> Result<Vec<FileData>, OutOfMemory>
    ensures { IfOk result (λ v. v.items ≡ files.now) }
{
    let mut copies = Vec::new(alloc);
    for file in files {
        let copy = file.copy(alloc)?;
        if copies.push(copy).is_err() {
            return Err(OutOfMemory);
        }
    }
    Ok(copies)
}

// The id for which the name stands after an entry.
fn newer(found: Option<u64>, entry: &NameEntry, name: &[u8]) -> Option<u64>
    ensures { result ≡ (if bytes_eq entry.now.name name.now then entry.now.id else found) }
{
    if entry.name.as_slice() == name {
        entry.id
    } else {
        found
    }
}

impl Disk {
    pub fn new(alloc: Global) -> Disk
        ensures { result ≡ record { names = []; files = [] } }
    {
        Disk {
            names: Vec::new(alloc),
            files: Vec::new(alloc),
        }
    }

    pub fn copy(&self, alloc: Global) -> Result<Disk, OutOfMemory>
        ensures { IfOk result (λ d. d ≡ self.now) }
    {
        let names = copy_names(&self.names, alloc)?;
        let files = copy_files(&self.files, alloc)?;
        Ok(Disk { names, files })
    }

    /// The id for which a name stands.
    pub fn find(&self, name: &[u8]) -> Option<u64>
        ensures { result ≡ (disk_content self.now).names name.now }
    {
        let mut found = None;
        for entry in &self.names {
            found = newer(found, entry, name);
        }
        found
    }

    /// The file of an id.
    pub fn file(&self, f: u64) -> Option<&FileData>
        ensures { option_map (λ x. x.now) result ≡ (disk_content self.now).files f }
    {
        self.files.get(f as usize)
    }

    /// Puts a new file there.
    pub fn add(&mut self, name: Datum, file: FileData) -> Result<u64, OutOfMemory>
        ensures added { IfOk result (λ id. AddsFile name file id (disk_content self.old) (disk_content self.new)) }
        ensures names { IfOk result (λ id. (id ≡ length self.old.files) × (self.new.names ≡ self.old.names ++ (record { name = name; id = Some id }) ∷ [])) }
        ensures files { OnOk result (self.new.files ≡ self.old.files ++ file ∷ []) }
        ensures stays { OnErr result (self.new ≡ self.old) }
    {
        if self.names.reserve(1).is_err() {
            return Err(OutOfMemory);
        }
        let id = self.files.len() as u64;
        if self.files.push(file).is_err() {
            return Err(OutOfMemory);
        }
        self.names.push_reserved(NameEntry { name, id: Some(id) });
        Ok(id)
    }

    fn create(&mut self, alloc: Global, name: Datum, mode: Mode) -> Result<(), OutOfMemory>
        ensures done { OnOk result (Does (Create name mode) (disk_content self.old) (disk_content self.new)) }
        ensures stays { OnErr result (self.new ≡ self.old) }
    {
        match self.add(name, FileData::new(Vec::new(alloc), mode, 0)) {
            Ok(_) => Ok(()),
            Err(OutOfMemory) => Err(OutOfMemory),
        }
    }

    fn remove(&mut self, name: Datum) -> Result<(), OutOfMemory>
        ensures done { OnOk result (Does (Remove name) (disk_content self.old) (disk_content self.new)) }
        ensures stays { OnErr result (self.new ≡ self.old) }
    {
        if self.names.reserve(1).is_err() {
            return Err(OutOfMemory);
        }
        self.names.push_reserved(NameEntry { name, id: None });
        Ok(())
    }

    fn replace(&mut self, from: Datum, to: Datum) -> Result<(), OutOfMemory>
        ensures done { OnOk result (Does (Replace from to) (disk_content self.old) (disk_content self.new)) }
        ensures stays { OnErr result (self.new ≡ self.old) }
    {
        let id = self.find(from.as_slice());
        if from.as_slice() == to.as_slice() {
            return Ok(());
        }
        if self.names.reserve(2).is_err() {
            return Err(OutOfMemory);
        }
        self.names.push_reserved(NameEntry { name: to, id });
        self.names.push_reserved(NameEntry {
            name: from,
            id: None,
        });
        Ok(())
    }

    fn write(&mut self, f: u64, at: u64, part: &[u8]) -> Result<(), OutOfMemory>
        requires { at + length part.now < 2 ^ 63 }
        ensures done { OnOk result (Does (Write f at part.now) (disk_content self.old) (disk_content self.new)) }
        ensures stays { OnErr result (self.new ≡ self.old) }
    {
        if f >= self.files.len() as u64 {
            return Ok(());
        }
        self.files[f as usize].write(at, part)
    }

    fn truncate(&mut self, f: u64)
        ensures { Does (Truncate f) (disk_content self.old) (disk_content self.new) }
    {
        if f < self.files.len() as u64 {
            self.files[f as usize].truncate();
        }
    }

    fn copied_bytes(&self, alloc: Global, f: u64) -> Result<Vec<u8>, OutOfMemory>
        requires { (disk_content self.now).files f ≢ None }
        ensures { IfOk result (λ v. (x : File) → (disk_content self.now).files f ≡ Some x → v.items ≡ x.bytes) }
    {
        match self.files[f as usize].bytes().to_vec(alloc) {
            Ok(bytes) => Ok(bytes),
            Err(_) => Err(OutOfMemory),
        }
    }

    fn put_clone(&mut self, f: u64, bytes: Vec<u8>, stamp: u64)
        ensures { Changes f (λ x y. y ≡ record { bytes = bytes.items; mode = x.mode; stamp = stamp }) (disk_content self.old) (disk_content self.new) }
    {
        if f < self.files.len() as u64 {
            self.files[f as usize].replace(bytes, stamp);
        }
    }

    fn clone_into(
        &mut self,
        alloc: Global,
        dst: u64,
        src: u64,
        stamp: u64,
    ) -> Result<(), OutOfMemory>
        requires { (disk_content self.old).files src ≢ None }
        ensures done { OnOk result (Does (Clone_into dst src stamp) (disk_content self.old) (disk_content self.new)) }
        ensures stays { OnErr result (self.new ≡ self.old) }
    {
        match self.copied_bytes(alloc, src) {
            Ok(bytes) => {
                self.put_clone(dst, bytes, stamp);
                Ok(())
            }
            Err(OutOfMemory) => Err(OutOfMemory),
        }
    }

    fn set_mode(&mut self, f: u64, mode: Mode)
        ensures { Does (Set_mode f mode) (disk_content self.old) (disk_content self.new) }
    {
        if f < self.files.len() as u64 {
            self.files[f as usize].set_mode(mode);
        }
    }

    /// Does a step. Without memory nothing changes.
    pub fn apply(&mut self, alloc: Global, step: &Step) -> Result<(), OutOfMemory>
        requires { CanDo step.now (disk_content self.old) }
        ensures done { OnOk result (Does (call_of step.now) (disk_content self.old) (disk_content self.new)) }
        ensures stays { OnErr result (self.new ≡ self.old) }
    {
        match step {
            Step::Create(name, mode) => self.create(alloc, copied(alloc, name)?, *mode),
            Step::Write(f, at, part) => self.write(*f, *at, part.as_slice()),
            Step::Truncate(f) => {
                self.truncate(*f);
                Ok(())
            }
            Step::CloneInto(dst, src, stamp) => self.clone_into(alloc, *dst, *src, *stamp),
            Step::SetMode(f, mode) => {
                self.set_mode(*f, *mode);
                Ok(())
            }
            Step::Sync(_) => Ok(()),
            Step::SyncNames => Ok(()),
            Step::Replace(from, to) => self.replace(copied(alloc, from)?, copied(alloc, to)?),
            Step::Remove(name) => self.remove(copied(alloc, name)?),
        }
    }
}

impl Disk {
    // What a crash leaves of the files that are there.
    fn crash_write(
        &mut self,
        alloc: Global,
        f: u64,
        at: u64,
        part: &[u8],
        ok: bool,
        done: bool,
        after: &Disk,
        choices: &mut Choices,
    ) -> Result<(), OutOfMemory>
        ensures files { OnOk result (FileSteps (event (Write f at part.now) ok (disk_content after.now)) self.old.files self.new.files) }
        ensures names { self.new.names ≡ self.old.names }
    {
        if f >= self.files.len() as u64 {
            return Ok(());
        }
        let most = match after.file(f) {
            Some(file) => file.len(),
            None => 0,
        };
        self.files[f as usize].crash_write(alloc, at, part, most, done, choices)
    }

    fn crash_truncate(&mut self, f: u64, ok: bool, done: bool, after: &Disk, choices: &mut Choices)
        ensures files { FileSteps (event (Truncate f) ok (disk_content after.now)) self.old.files self.new.files }
        ensures names { self.new.names ≡ self.old.names }
    {
        let _ = after;
        if f < self.files.len() as u64 {
            self.files[f as usize].crash_truncate(done, choices);
        }
    }

    fn crash_clone(
        &mut self,
        alloc: Global,
        dst: u64,
        src: u64,
        stamp: u64,
        ok: bool,
        done: bool,
        after: &Disk,
        choices: &mut Choices,
    ) -> Result<(), OutOfMemory>
        ensures files { OnOk result (FileSteps (event (Clone_into dst src stamp) ok (disk_content after.now)) self.old.files self.new.files) }
        ensures names { self.new.names ≡ self.old.names }
    {
        if dst >= self.files.len() as u64 {
            return Ok(());
        }
        let bytes = match after.file(src) {
            Some(file) => file.bytes(),
            None => &[],
        };
        match bytes.to_vec(alloc) {
            Ok(bytes) => {
                self.files[dst as usize].crash_clone(bytes, stamp, done, choices);
                Ok(())
            }
            Err(_) => Err(OutOfMemory),
        }
    }

    fn crash_mode(
        &mut self,
        f: u64,
        mode: Mode,
        ok: bool,
        done: bool,
        after: &Disk,
        choices: &mut Choices,
    )
        ensures files { FileSteps (event (Set_mode f mode) ok (disk_content after.now)) self.old.files self.new.files }
        ensures names { self.new.names ≡ self.old.names }
    {
        let _ = after;
        if f < self.files.len() as u64 {
            self.files[f as usize].crash_mode(mode, done, choices);
        }
    }

    fn crash_sync(
        &mut self,
        alloc: Global,
        f: u64,
        ok: bool,
        after: &Disk,
    ) -> Result<(), OutOfMemory>
        requires { length self.old.files ≤ length after.now.files }
        ensures files { OnOk result (FileSteps (event (Sync f) ok (disk_content after.now)) self.old.files self.new.files) }
        ensures names { self.new.names ≡ self.old.names }
    {
        if !ok || f >= self.files.len() as u64 {
            return Ok(());
        }
        match after.files[f as usize].copy(alloc) {
            Ok(file) => {
                self.files[f as usize] = file;
                Ok(())
            }
            Err(OutOfMemory) => Err(OutOfMemory),
        }
    }

    // What a crash leaves of the files that are there. A call that is not to be done is done where it is chosen.
    fn crash_files(
        &mut self,
        alloc: Global,
        step: &Step,
        ok: bool,
        done: bool,
        after: &Disk,
        choices: &mut Choices,
    ) -> Result<(), OutOfMemory>
        requires { length self.old.files ≤ length after.now.files }
        ensures files { OnOk result (FileSteps (event (call_of step.now) ok (disk_content after.now)) self.old.files self.new.files) }
        ensures names { self.new.names ≡ self.old.names }
    {
        match step {
            Step::Write(f, at, part) => {
                self.crash_write(alloc, *f, *at, part.as_slice(), ok, done, after, choices)
            }
            Step::Truncate(f) => {
                self.crash_truncate(*f, ok, done, after, choices);
                Ok(())
            }
            Step::CloneInto(dst, src, stamp) => {
                self.crash_clone(alloc, *dst, *src, *stamp, ok, done, after, choices)
            }
            Step::SetMode(f, mode) => {
                self.crash_mode(*f, *mode, ok, done, after, choices);
                Ok(())
            }
            Step::Sync(f) => self.crash_sync(alloc, *f, ok, after),
            _ => Ok(()),
        }
    }

    // The files that were made are there as they were made.
    fn add_files(&mut self, alloc: Global, after: &Disk) -> Result<(), OutOfMemory>
        requires { length self.old.files ≤ length after.now.files }
        ensures files { OnOk result (self.new.files ≡ self.old.files ++ drop (length self.old.files) after.now.files) }
        ensures names { self.new.names ≡ self.old.names }
    {
        let start = self.files.len();
        let mut made = copy_files(&after.files[start..], alloc)?;
        match self.files.append(&mut made) {
            Ok(()) => Ok(()),
            Err(_) => Err(OutOfMemory),
        }
    }

    // A name stands for what it stood for after the call, or for what it might before.
    fn choose_name(
        &mut self,
        alloc: Global,
        name: &Datum,
        after: &Disk,
        choices: &mut Choices,
    ) -> Result<(), OutOfMemory>
        ensures names { OnOk result ((n : List ℕ) → (names_of self.new.names n ≡ names_of self.old.names n) ⊎ (names_of self.new.names n ≡ names_of after.now.names n)) }
        ensures files { self.new.files ≡ self.old.files }
    {
        if choices.next() != 0 {
            return Ok(());
        }
        let id = after.find(name.as_slice());
        match self.bind(copied(alloc, name)?, id) {
            Ok(()) => Ok(()),
            Err(OutOfMemory) => Err(OutOfMemory),
        }
    }

    fn bind(&mut self, name: Datum, id: Option<u64>) -> Result<(), OutOfMemory>
        ensures names { OnOk result (self.new.names ≡ self.old.names ++ (record { name = name; id = id }) ∷ []) }
        ensures files { self.new.files ≡ self.old.files }
    {
        match self.names.push(NameEntry { name, id }) {
            Ok(()) => Ok(()),
            Err(_) => Err(OutOfMemory),
        }
    }

    fn crash_replace(
        &mut self,
        alloc: Global,
        from: &Datum,
        to: &Datum,
        ok: bool,
        after: &Disk,
        choices: &mut Choices,
    ) -> Result<(), OutOfMemory>
        ensures names { OnOk result ((n : List ℕ) → NameSteps (event (Replace from.now to.now) ok (disk_content after.now)) n self.old self.new) }
        ensures files { self.new.files ≡ self.old.files }
    {
        self.choose_name(alloc, to, after, choices)?;
        match self.choose_name(alloc, from, after, choices) {
            Ok(()) => Ok(()),
            Err(OutOfMemory) => Err(OutOfMemory),
        }
    }

    fn crash_sync_names(&mut self, alloc: Global, ok: bool, after: &Disk) -> Result<(), OutOfMemory>
        ensures names { OnOk result ((n : List ℕ) → NameSteps (event Sync_names ok (disk_content after.now)) n self.old self.new) }
        ensures files { self.new.files ≡ self.old.files }
    {
        if !ok {
            return Ok(());
        }
        match copy_names(&after.names, alloc) {
            Ok(names) => {
                self.names = names;
                Ok(())
            }
            Err(OutOfMemory) => Err(OutOfMemory),
        }
    }

    // What a crash leaves of the names.
    fn crash_names(
        &mut self,
        alloc: Global,
        step: &Step,
        ok: bool,
        after: &Disk,
        choices: &mut Choices,
    ) -> Result<(), OutOfMemory>
        ensures names { OnOk result ((n : List ℕ) → NameSteps (event (call_of step.now) ok (disk_content after.now)) n self.old self.new) }
        ensures files { self.new.files ≡ self.old.files }
    {
        match step {
            Step::Create(name, _) => self.choose_name(alloc, name, after, choices),
            Step::Remove(name) => self.choose_name(alloc, name, after, choices),
            Step::Replace(from, to) => self.crash_replace(alloc, from, to, ok, after, choices),
            Step::SyncNames => self.crash_sync_names(alloc, ok, after),
            _ => Ok(()),
        }
    }

    /// What a crash leaves after a call of which it might leave this before.
    pub fn crash(
        &mut self,
        alloc: Global,
        step: &Step,
        ok: bool,
        after: &Disk,
        choices: &mut Choices,
    ) -> Result<(), OutOfMemory>
        requires { length self.old.files ≤ length after.now.files }
        ensures { OnOk result (Steps (event (call_of step.now) ok (disk_content after.now)) after.now self.old self.new) }
    {
        self.crash_files(alloc, step, ok, ok, after, choices)?;
        self.add_files(alloc, after)?;
        match self.crash_names(alloc, step, ok, after, choices) {
            Ok(()) => Ok(()),
            Err(OutOfMemory) => Err(OutOfMemory),
        }
    }

    fn run_create(
        &mut self,
        alloc: Global,
        name: &Datum,
        mode: Mode,
        before: &Disk,
        choices: &mut Choices,
    ) -> Result<(), OutOfMemory>
        requires { length before.now.files ≤ length self.old.files }
        ensures { OnOk result (RunsNames (disk_content before.now) (Create name.now mode) self.old self.new) }
    {
        if choices.next() == 0 {
            return Ok(());
        }
        let file = FileData::new(Vec::new(alloc), mode, 0);
        match self.add(copied(alloc, name)?, file) {
            Ok(_) => Ok(()),
            Err(OutOfMemory) => Err(OutOfMemory),
        }
    }

    fn run_remove(
        &mut self,
        alloc: Global,
        name: &Datum,
        before: &Disk,
        choices: &mut Choices,
    ) -> Result<(), OutOfMemory>
        ensures { OnOk result (RunsNames (disk_content before.now) (Remove name.now) self.old self.new) }
    {
        let _ = before;
        if choices.next() == 0 {
            return Ok(());
        }
        match self.bind(copied(alloc, name)?, None) {
            Ok(()) => Ok(()),
            Err(OutOfMemory) => Err(OutOfMemory),
        }
    }

    fn run_to(
        &mut self,
        alloc: Global,
        from: &Datum,
        to: &Datum,
        before: &Disk,
        choices: &mut Choices,
    ) -> Result<(), OutOfMemory>
        ensures { OnOk result (RunsNames (disk_content before.now) (Replace from.now to.now) self.old self.new) }
    {
        if choices.next() == 0 {
            return Ok(());
        }
        let id = before.find(from.as_slice());
        match self.bind(copied(alloc, to)?, id) {
            Ok(()) => Ok(()),
            Err(OutOfMemory) => Err(OutOfMemory),
        }
    }

    fn run_from(
        &mut self,
        alloc: Global,
        from: &Datum,
        to: &Datum,
        before: &Disk,
        choices: &mut Choices,
    ) -> Result<(), OutOfMemory>
        ensures { OnOk result (RunsNames (disk_content before.now) (Replace from.now to.now) self.old self.new) }
    {
        let _ = before;
        if choices.next() == 0 || from.as_slice() == to.as_slice() {
            return Ok(());
        }
        match self.bind(copied(alloc, from)?, None) {
            Ok(()) => Ok(()),
            Err(OutOfMemory) => Err(OutOfMemory),
        }
    }

    fn run_replace(
        &mut self,
        alloc: Global,
        from: &Datum,
        to: &Datum,
        before: &Disk,
        choices: &mut Choices,
    ) -> Result<(), OutOfMemory>
        ensures { OnOk result (RunsNames (disk_content before.now) (Replace from.now to.now) self.old self.new) }
    {
        self.run_to(alloc, from, to, before, choices)?;
        match self.run_from(alloc, from, to, before, choices) {
            Ok(()) => Ok(()),
            Err(OutOfMemory) => Err(OutOfMemory),
        }
    }

    fn run_names(
        &mut self,
        alloc: Global,
        step: &Step,
        before: &Disk,
        choices: &mut Choices,
    ) -> Result<(), OutOfMemory>
        requires { length before.now.files ≤ length self.old.files }
        ensures { OnOk result (RunsNames (disk_content before.now) (call_of step.now) self.old self.new) }
    {
        match step {
            Step::Create(name, mode) => self.run_create(alloc, name, *mode, before, choices),
            Step::Remove(name) => self.run_remove(alloc, name, before, choices),
            Step::Replace(from, to) => self.run_replace(alloc, from, to, before, choices),
            _ => Ok(()),
        }
    }

    /// What a crash leaves inside a call.
    pub fn run(
        &mut self,
        alloc: Global,
        step: &Step,
        before: &Disk,
        after: &Disk,
        choices: &mut Choices,
    ) -> Result<(), OutOfMemory>
        requires before { length before.now.files ≤ length self.old.files }
        requires after { length self.old.files ≤ length after.now.files }
        ensures { OnOk result (Runs (disk_content before.now) (event (call_of step.now) false (disk_content after.now)) self.old self.new) }
    {
        self.crash_files(alloc, step, false, false, after, choices)?;
        match self.run_names(alloc, step, before, choices) {
            Ok(()) => Ok(()),
            Err(OutOfMemory) => Err(OutOfMemory),
        }
    }
}

fn copied(alloc: Global, name: &Datum) -> Result<Datum, OutOfMemory>
    ensures { IfOk result (λ d. d ≡ name.now) }
{
    Datum::from_slice(alloc, name.as_slice())
}
