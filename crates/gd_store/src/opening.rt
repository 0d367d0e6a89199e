//! Opening a database, and closing it.

ghost use Rattle.std.specs.Prelude.{◌≡◌, ◌≢◌, ◌⊎◌, ◌≤◌, true, false, [], None, Some, Ok, IfOk, IfErr, OnOk, OnErr, length};
ghost use Rattle.gd_base.specs.Causes.{Rose};
ghost use Rattle.gd_format.specs.Avail.{avail_at};
ghost use Rattle.gd_create.specs.NewFile.{IsNewHeader, new_file};
ghost use Rattle.gd_create.specs.Stands.{Stands};
ghost use Rattle.gd_format.specs.File.{front_of, records};
ghost use Rattle.gd_format.specs.HeaderFault.{header_of, is_native};
ghost use Rattle.gd_layout.specs.Fits.{FitsHeader};
ghost use Rattle.gd_format.specs.Headers.{IsHeader};
ghost use Rattle.gd_format.specs.Sound.{most_of, table_of};
ghost use Rattle.gd_vault.specs.Content.{File};
ghost use Rattle.gd_vault.specs.Changes.{Changed};
ghost use Rattle.gd_vault.specs.Events.Call.{Sync};
ghost use Rattle.gd_vault.specs.Frame.{Within, OneFile, NoName};
ghost use Rattle.gd_vault.specs.Streams.{OnlyWrites};
ghost use Rattle.gd_vault.specs.Views.{HasFile, IsAt, OnlyAsks, content_of};
ghost use Rattle.gd_readable.specs.Asks.{Counts, IsAnswer, Refuses};
ghost use Rattle.gd_store.specs.Opened.{Fits, IsAsked, IsCleared, IsOwn, MarksStay, NamesOwn, OnFile, OpenedAs, StandsFor, fault_for, is_for, is_of_opening, open_due};

use crate::access::Access;
use crate::store::Store;
use gd_base::{DbError, Format, Name, Which};
use gd_create::{block_for, make_file, new_header};
use gd_format::Header;
use gd_open::OpenFile;
use gd_readable::readable;
use gd_space::{Space, SpaceError};
use gd_vault::{CreateError, FileId, Mode, Vault};
use gd_verify::sound;
use std::alloc::Global;

// The file for which a name stands.
#[tactic(auto, using(crate::proofs::OpenFacts::asked_same))]
fn named_file<V: Vault>(vault: &mut V, name: &Name) -> Result<FileId, DbError>
    ensures asks { OnlyAsks (V.view_of vault.old) (V.view_of vault.new) }
    ensures named { IfOk result (λ f. StandsFor (V.view_of vault.old) name.now f.0) }
    ensures there { IfOk result (λ f. HasFile (V.view_of vault.old) f.0) }
    ensures error { IfErr result (λ e. (e ≡ DbError.VaultFault) ⊎ (e ≡ DbError.Absent)) }
    ensures fault { IfErr result (λ e. e ≡ DbError.VaultFault → Rose (V.view_of vault.old).faults (V.view_of vault.new).faults) }
    ensures absent { IfErr result (λ e. e ≡ DbError.Absent → IsAt (V.view_of vault.old) (λ c. c.names name.now ≡ None)) }
    ensures unread { IfErr result (λ e. e ≡ DbError.Absent → V.view_of vault.new ≡ V.view_of vault.old) }
    ensures answered { OnOk result ((V.view_of vault.new).faults ≡ (V.view_of vault.old).faults) }
    ensures counted { IfErr result (λ e. Counts e (V.view_of vault.old).faults (V.view_of vault.new).faults) }
{
    match vault.lookup(name) {
        Ok(Some(f)) => Ok(f),
        Ok(None) => Err(DbError::Absent),
        Err(_) => Err(DbError::VaultFault),
    }
}

// The header of a file that may be opened.
fn checked<V: Vault>(
    alloc: Global,
    vault: &mut V,
    f: FileId,
    access: Access,
) -> Result<Header, DbError>
    requires { HasFile (V.view_of vault.old) f.0 }
    ensures asks { OnlyAsks (V.view_of vault.old) (V.view_of vault.new) }
    ensures header { IfOk result IsHeader }
    ensures fits { IfOk result FitsHeader }
    ensures native { IfOk result (λ h. is_native h.magic ≡ true) }
    ensures right { IfOk result (λ h. OnFile (V.view_of vault.old) f.0 (λ file. (fault_for access file ≡ None) × (h ≡ header_of (front_of file)))) }
    ensures refused { IfErr result (λ e. Refuses e (Rose (V.view_of vault.old).faults (V.view_of vault.new).faults) (OnFile (V.view_of vault.old) f.0 (λ file. fault_for access file ≡ Some e))) }
    ensures kind { IfErr result (λ e. IsAnswer (is_for access) e) }
    ensures answered { OnOk result ((V.view_of vault.new).faults ≡ (V.view_of vault.old).faults) }
    ensures counted { IfErr result (λ e. Counts e (V.view_of vault.old).faults (V.view_of vault.new).faults) }
{
    match access {
        Access::Reader => readable(alloc, vault, f),
        Access::Writer => sound(alloc, vault, f),
    }
}

// What is kept of the free space of a sound file.
fn loaded<V: Vault>(
    alloc: Global,
    vault: &mut V,
    f: FileId,
    header: &Header,
) -> Result<Space, DbError>
    requires file { HasFile (V.view_of vault.old) f.0 }
    requires header { IsHeader header.now }
    ensures asks { OnlyAsks (V.view_of vault.old) (V.view_of vault.new) }
    ensures block { IfOk result (λ s. s.block ≡ header.now.block) }
    ensures room { IfOk result (λ s. s.table.room ≡ most_of header.now) }
    ensures fits { IfOk result (λ s. length s.table.extents ≤ header.now.avail_size) }
    ensures table { IfOk result (λ s. IsAt (V.view_of vault.old) (λ c. (x : File) → c.files f.0 ≡ Some x → s.table ≡ avail_at (table_of x.bytes header.now) (most_of header.now))) }
    ensures refused { IfErr result (λ e. Refuses e (Rose (V.view_of vault.old).faults (V.view_of vault.new).faults) (OnFile (V.view_of vault.old) f.0 (λ file. header.now ≡ header_of (front_of file) → fault_for Access.Writer file ≢ None))) }
    ensures kind { IfErr result (λ e. IsAnswer (is_for Access.Writer) e) }
    ensures answered { OnOk result ((V.view_of vault.new).faults ≡ (V.view_of vault.old).faults) }
    ensures counted { IfErr result (λ e. Counts e (V.view_of vault.old).faults (V.view_of vault.new).faults) }
{
    match Space::load(alloc, vault, f, header) {
        Ok(space) => Ok(space),
        Err(SpaceError::VaultFault) => Err(DbError::VaultFault),
        Err(SpaceError::BadAvail(at)) => Err(DbError::BadAvail(at)),
        Err(SpaceError::FileFull) => Err(DbError::FileFull),
        Err(SpaceError::OutOfMemory) => Err(DbError::OutOfMemory),
    }
}

// What is kept of the free space of a file: of one that is opened to be read nothing.
fn space_of<V: Vault>(
    alloc: Global,
    vault: &mut V,
    f: FileId,
    header: &Header,
    access: Access,
) -> Result<Space, DbError>
    requires file { HasFile (V.view_of vault.old) f.0 }
    requires header { IsHeader header.now }
    ensures asks { OnlyAsks (V.view_of vault.old) (V.view_of vault.new) }
    ensures block { IfOk result (λ s. s.block ≡ header.now.block) }
    ensures room { IfOk result (λ s. s.table.room ≡ most_of header.now) }
    ensures fits { IfOk result (λ s. length s.table.extents ≤ header.now.avail_size) }
    ensures table { access ≡ Access.Writer → IfOk result (λ s. IsAt (V.view_of vault.old) (λ c. (x : File) → c.files f.0 ≡ Some x → s.table ≡ avail_at (table_of x.bytes header.now) (most_of header.now))) }
    ensures refused { IfErr result (λ e. Refuses e (Rose (V.view_of vault.old).faults (V.view_of vault.new).faults) (OnFile (V.view_of vault.old) f.0 (λ file. header.now ≡ header_of (front_of file) → fault_for access file ≢ None))) }
    ensures kind { IfErr result (λ e. IsAnswer (is_for access) e) }
    ensures answered { OnOk result ((V.view_of vault.new).faults ≡ (V.view_of vault.old).faults) }
    ensures counted { IfErr result (λ e. Counts e (V.view_of vault.old).faults (V.view_of vault.new).faults) }
    ensures reader { access ≡ Access.Reader → V.view_of vault.new ≡ V.view_of vault.old }
    ensures memory { access ≡ Access.Reader → IfErr result (λ e. e ≡ DbError.OutOfMemory) }
{
    match access {
        Access::Reader => match Space::empty(alloc, header) {
            Some(space) => Ok(space),
            None => Err(DbError::OutOfMemory),
        },
        Access::Writer => loaded(alloc, vault, f, header),
    }
}

// An empty file for a name: a new one, or the one for which it stands.
fn emptied<V: Vault>(vault: &mut V, name: &Name) -> Result<FileId, DbError>
    ensures stands { IfOk result (λ f. StandsFor (V.view_of vault.new) name.now f.0) }
    ensures empty { IfOk result (λ f. OnFile (V.view_of vault.new) f.0 (λ file. file ≡ [])) }
    ensures cleared { IfOk result (λ f. IsCleared (V.view_of vault.old) (V.view_of vault.new) name.now f.0 []) }
    ensures there { IfOk result (λ f. HasFile (V.view_of vault.new) f.0) }
    ensures own { IfOk result (λ f. IsOwn (V.view_of vault.old) name.now f.0) }
    ensures name { NamesOwn (V.view_of vault.old) (V.view_of vault.new) name.now }
    ensures marks { MarksStay (V.view_of vault.old) (V.view_of vault.new) name.now }
    ensures error { IfErr result (λ e. (e ≡ DbError.VaultFault) ⊎ ((e ≡ DbError.Exists Which.Only) × (content_of (V.view_of vault.old).told ≡ None))) }
    ensures fault { IfErr result (λ e. e ≡ DbError.VaultFault → Rose (V.view_of vault.old).faults (V.view_of vault.new).faults) }
    ensures answered { OnOk result ((V.view_of vault.new).faults ≡ (V.view_of vault.old).faults) }
    ensures counted { IfErr result (λ e. Counts e (V.view_of vault.old).faults (V.view_of vault.new).faults) }
    ensures bytes_written { (V.view_of vault.new).bytes_written ≡ (V.view_of vault.old).bytes_written }
    ensures frame { Within (StandsFor (V.view_of vault.old) name.now) (λ n. n ≡ name.now) (V.view_of vault.old) (V.view_of vault.new) }
{
    match vault.lookup(name) {
        Ok(Some(f)) => match vault.truncate(f) {
            Ok(()) => Ok(f),
            Err(_) => Err(DbError::VaultFault),
        },
        Ok(None) => match vault.create(name, Mode::Both) {
            Ok(f) => Ok(f),
            Err(CreateError::Exists) => Err(DbError::Exists(Which::Only)),
            Err(CreateError::Failed) => Err(DbError::VaultFault),
        },
        Err(_) => Err(DbError::VaultFault),
    }
}

impl Store {
    /// Makes an empty database in the file for which a name stands, or in a new one of mode `Both`. An older file loses all that
    /// it had, and keeps its mode and its stamp.
    ///
    /// The block size is 4,096 bytes where a number below 512 is asked for, else the least power of two that is not smaller.
    /// Nothing is made durable. The refusals are `VaultFault`, `OutOfMemory`, and over a vault that contradicts itself
    /// `Exists`.
    pub fn create<V: Vault>(
        alloc: Global,
        vault: &mut V,
        name: &Name,
        size: u32,
        format: Format,
        cache: u32,
    ) -> Result<Store, DbError>
        requires size { size ≤ 1048576 }
        requires least { 1 ≤ cache }
        requires most { cache ≤ 4096 }
        ensures opened { IfOk result (λ s. OpenedAs (V.view_of vault.new) name.now Access.Writer cache s) }
        ensures there { IfOk result (λ s. HasFile (V.view_of vault.new) s.file) }
        ensures fits { IfOk result (λ s. Fits (V.view_of vault.new) s) }
        ensures sizes { IfOk result (λ s. IsAsked size format s.header) }
        ensures header { IfOk result (λ s. IsNewHeader s.header) }
        ensures own { IfOk result (λ s. IsOwn (V.view_of vault.old) name.now s.file) }
        ensures name { NamesOwn (V.view_of vault.old) (V.view_of vault.new) name.now }
        ensures marks { MarksStay (V.view_of vault.old) (V.view_of vault.new) name.now }
        ensures bytes { IfOk result (λ s. OnFile (V.view_of vault.new) s.file (λ file. (file ≡ new_file format s.header.block s.header.dir_bits) × (records file ≡ []))) }
        ensures cleared { IfOk result (λ s. IsCleared (V.view_of vault.old) (V.view_of vault.new) name.now s.file (new_file format s.header.block s.header.dir_bits)) }
        ensures refused { IfErr result (λ e. Refuses e (Rose (V.view_of vault.old).faults (V.view_of vault.new).faults) ((e ≡ DbError.Exists Which.Only) × (content_of (V.view_of vault.old).told ≡ None))) }
        ensures answered { OnOk result ((V.view_of vault.new).faults ≡ (V.view_of vault.old).faults) }
        ensures counted { IfErr result (λ e. Counts e (V.view_of vault.old).faults (V.view_of vault.new).faults) }
        ensures memory { IfErr result (λ e. e ≡ DbError.OutOfMemory → OnlyAsks (V.view_of vault.old) (V.view_of vault.new)) }
        ensures frame { Within (StandsFor (V.view_of vault.old) name.now) (λ n. n ≡ name.now) (V.view_of vault.old) (V.view_of vault.new) }
    {
        let header = new_header(block_for(size), format);
        let Some(space) = Space::empty(alloc, &header) else {
            return Err(DbError::OutOfMemory);
        };
        let Ok(mut block) = vec![in alloc; 0u8; header.block as usize] else {
            return Err(DbError::OutOfMemory);
        };
        let file = emptied(vault, name)?;
        make_file(vault, file, &header, &mut block)?;
        Ok(Store {
            alloc,
            file: OpenFile::new(file, header, space, block),
            access: Access::Writer,
            broken: false,
            cache,
        })
    }

    /// Opens the file for which a name stands, after checking all of it: one that is to be read has to be readable, and
    /// one that is to be written has to be sound.
    ///
    /// The refusals are `Absent`, before anything is read, the first refusal of the file, `VaultFault` and `OutOfMemory`,
    /// and no others over any vault. `VaultFault` alone raises the count of faults.
    #[tactic(auto, using(crate::proofs::OpenFacts::named_answer, crate::proofs::OpenFacts::opening_answer, crate::proofs::OpenFacts::not_absent, gd_readable::proofs::Refusals::counts_from))]
    pub fn open_file<V: Vault>(
        alloc: Global,
        vault: &mut V,
        name: &Name,
        access: Access,
        cache: u32,
    ) -> Result<Store, DbError>
        requires least { 1 ≤ cache }
        requires most { cache ≤ 4096 }
        ensures asks { OnlyAsks (V.view_of vault.old) (V.view_of vault.new) }
        ensures opened { IfOk result (λ s. OpenedAs (V.view_of vault.new) name.now access cache s) }
        ensures there { IfOk result (λ s. HasFile (V.view_of vault.new) s.file) }
        ensures fits { IfOk result (λ s. Fits (V.view_of vault.new) s) }
        ensures refused { IfErr result (λ e. Refuses e (Rose (V.view_of vault.old).faults (V.view_of vault.new).faults) (IsAt (V.view_of vault.old) (λ c. open_due c name.now access ≡ Some e))) }
        ensures kind { IfErr result (λ e. IsAnswer (is_of_opening access) e) }
        ensures absent { IfErr result (λ e. e ≡ DbError.Absent → V.view_of vault.new ≡ V.view_of vault.old) }
        ensures answered { OnOk result ((V.view_of vault.new).faults ≡ (V.view_of vault.old).faults) }
        ensures counted { IfErr result (λ e. Counts e (V.view_of vault.old).faults (V.view_of vault.new).faults) }
    {
        let file = named_file(vault, name)?;
        let header = checked(alloc, vault, file, access)?;
        let space = space_of(alloc, vault, file, &header, access)?;
        let Ok(block) = vec![in alloc; 0u8; header.block as usize] else {
            return Err(DbError::OutOfMemory);
        };
        Ok(Store {
            alloc,
            file: OpenFile::new(file, header, space, block),
            access,
            broken: false,
            cache,
        })
    }

    #[tactic(auto, using(gd_vault::proofs::Within::within))]
    /// Makes the file of a writer durable. Of a broken database or a reader's it does nothing. The database is gone after a
    /// refusal too.
    pub fn close_file<V: Vault>(self, vault: &mut V) -> Result<(), DbError>
        requires { HasFile (V.view_of vault.old) self.file }
        ensures same { OnFile (V.view_of vault.old) self.file (λ file. OnFile (V.view_of vault.new) self.file (λ now. now ≡ file)) }
        ensures frame { Within (OneFile self.file) NoName (V.view_of vault.old) (V.view_of vault.new) }
        ensures bytes_written { (V.view_of vault.new).bytes_written ≡ (V.view_of vault.old).bytes_written }
        ensures clones { (V.view_of vault.new).clones ≡ (V.view_of vault.old).clones }
        ensures error { IfErr result (λ e. (e ≡ DbError.VaultFault) × Rose (V.view_of vault.old).faults (V.view_of vault.new).faults) }
        ensures answered { OnOk result ((V.view_of vault.new).faults ≡ (V.view_of vault.old).faults) }
        ensures synced { self.broken ≡ false → self.access ≡ Access.Writer → Changed (Sync self.file) result (V.view_of vault.old) (V.view_of vault.new) }
        ensures reader { self.access ≡ Access.Reader → (result ≡ Ok tt) × (V.view_of vault.new ≡ V.view_of vault.old) }
        ensures broken { self.broken ≡ true → (result ≡ Ok tt) × (V.view_of vault.new ≡ V.view_of vault.old) }
    {
        if self.broken || self.access == Access::Reader {
            return Ok(());
        }
        match vault.sync(self.file.file()) {
            Ok(()) => Ok(()),
            Err(_) => Err(DbError::VaultFault),
        }
    }
}
