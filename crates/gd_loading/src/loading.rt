//! A whole load.

ghost use Rattle.std.specs.Prelude.{◌≡◌, ◌≤◌, Some, true, is_some, IfOk, IfErr, OnOk};
ghost use Rattle.gd_base.specs.Causes.{Rose};
ghost use Rattle.gd_load.specs.Front.{front_ended};
ghost use Rattle.gd_load.specs.Items.{EndsWith};
ghost use Rattle.gd_loading.specs.Load.{Enters, LoadsAs, PouredBy, PouredFront, ends_by, entry_due, format_in, is_of_entry, is_of_target, is_used, name_in, target, target_due};
ghost use Rattle.gd_loading.specs.Loads.{IsLoading};
ghost use Rattle.gd_vault.specs.Views.{IsAt, OnlyAsks};

use crate::taking::{Ending, store_pairs};
use gd_base::{DbError, Format, Name, NameError, OutOfMemory, Source};
use gd_dump_reading::{DumpHead, Machine};
use gd_load::{Front, Incoming, Stop, start};
use gd_store::{Access, How, Store};
use gd_vault::{FileId, Vault};
use std::alloc::Global;

/// How a dump is loaded.
#[derive(Clone, Copy, Debug, PartialEq, Eq)]
pub struct Plan {
    /// The block size of a new file that is asked for, at most 1,048,576.
    pub block: u32,
    /// How many buckets may be kept, 1 to 4,096.
    pub cache: u32,
    pub how: How,
    /// Is the file that is there opened? Else a new one takes its place.
    pub update: bool,
}

/// How a load ended.
#[derive(Clone, Copy, Debug, PartialEq, Eq)]
pub enum LoadEnd {
    Loaded,
    /// There is no head. The vault is as it was.
    Head(Stop),
    /// The head came, and neither it nor the caller gives a name. It ends at this place.
    Unnamed(u64),
    /// The database was not opened.
    Opening(DbError),
    /// The pairs ended before the end of the dump. Those before are stored.
    Pairs(Ending),
    /// The database was not made durable.
    Closing(DbError),
}

// The name that a text is, if it is one.
fn name_of(alloc: Global, text: &[u8]) -> Result<Option<Name>, OutOfMemory>
    ensures { IfOk result (λ name. name ≡ name_in (Some text.now)) }
{
    let Ok(text) = str::from_utf8(text) else {
        return Ok(None);
    };
    match Name::new(alloc, text) {
        Ok(name) => Ok(Some(name)),
        Err(NameError::OutOfMemory) => Err(OutOfMemory),
        Err(_) => Ok(None),
    }
}

// The name that was given, else that of the head.
fn name_for(alloc: Global, name: Option<Name>, head: &DumpHead) -> Result<Option<Name>, OutOfMemory>
    ensures { IfOk result (λ found. found ≡ target name head.now.file) }
{
    if let Some(name) = name {
        return Ok(Some(name));
    }
    match &head.file {
        Some(text) => name_of(alloc, text.as_slice()),
        None => Ok(None),
    }
}

fn format_for(head: &DumpHead) -> Format
    ensures { result ≡ format_in head.now.format }
{
    match head.format {
        Some(format) => format,
        None => Format::Standard,
    }
}

// Opens the file that is there, or makes a new one.
fn open_target<V: Vault>(
    alloc: Global,
    plan: Plan,
    format: Format,
    name: &Name,
    vault: &mut V,
) -> Result<Store, DbError>
    requires block { plan.block ≤ 1048576 }
    requires least { 1 ≤ plan.cache }
    requires most { plan.cache ≤ 4096 }
    ensures { Enters plan format name.now (λ c. target_due c plan.update name.now) (is_of_target plan.update) (V.view_of vault.old) (V.view_of vault.new) result }
{
    if !plan.update {
        return Store::create(alloc, vault, name, plan.block, format, plan.cache);
    }
    match vault.lookup(name) {
        Ok(Some(_)) => Store::open_file(alloc, vault, name, Access::Writer, plan.cache),
        Ok(None) => Store::create(alloc, vault, name, plan.block, format, plan.cache),
        Err(_) => Err(DbError::VaultFault),
    }
}

// Does the name stand for the file that is read?
fn is_in_use<V: Vault>(used: Option<FileId>, name: &Name, vault: &mut V) -> Result<bool, DbError>
    ensures asks { OnlyAsks (V.view_of vault.old) (V.view_of vault.new) }
    ensures used { IfOk result (λ b. IsAt (V.view_of vault.old) (λ c. is_used used (c.names name.now) ≡ b)) }
    ensures read { IfOk result (λ b. b ≡ true → is_some used ≡ true) }
    ensures answered { OnOk result ((V.view_of vault.new).faults ≡ (V.view_of vault.old).faults) }
    ensures failed { IfErr result (λ e. (e ≡ DbError.VaultFault) × Rose (V.view_of vault.old).faults (V.view_of vault.new).faults) }
{
    let Some(used) = used else {
        return Ok(false);
    };
    match vault.lookup(name) {
        Ok(Some(f)) => Ok(f == used),
        Ok(None) => Ok(false),
        Err(_) => Err(DbError::VaultFault),
    }
}

// Opens the database, unless it is the file that is read.
fn enter<V: Vault>(
    alloc: Global,
    plan: Plan,
    format: Format,
    used: Option<FileId>,
    name: &Name,
    vault: &mut V,
) -> Result<Store, DbError>
    requires block { plan.block ≤ 1048576 }
    requires least { 1 ≤ plan.cache }
    requires most { plan.cache ≤ 4096 }
    ensures { Enters plan format name.now (λ c. entry_due c plan.update used name.now) (is_of_entry plan.update (is_some used)) (V.view_of vault.old) (V.view_of vault.new) result }
{
    match is_in_use(used, name, vault) {
        Ok(true) => Err(DbError::InUse),
        Ok(false) => open_target(alloc, plan, format, name, vault),
        Err(error) => Err(error),
    }
}

fn end_of(pairs: Result<(), Ending>, closing: Result<(), DbError>) -> LoadEnd
    ensures { result ≡ ends_by pairs closing }
{
    match (pairs, closing) {
        (Ok(()), Ok(())) => LoadEnd::Loaded,
        (Ok(()), Err(error)) => LoadEnd::Closing(error),
        (Err(Ending::Dump(Stop::Starved)), Err(error)) => LoadEnd::Closing(error),
        (Err(Ending::Db(DbError::OutOfMemory)), Err(error)) => LoadEnd::Closing(error),
        (Err(ending), _) => LoadEnd::Pairs(ending),
    }
}

// Stores the pairs behind the head, and closes the database.
fn pour<M: Machine, S: Source, V: Vault>(
    incoming: Incoming<M>,
    how: How,
    store: Store,
    input: &mut S,
    vault: &mut V,
) -> LoadEnd
    requires loading { IsLoading (V.view_of vault.old) store }
    requires ended { EndsWith incoming.ended (S.left input.old) }
    ensures { PouredBy how store incoming (record { left = S.left input.old; failed = S.fault_count input.old; view = V.view_of vault.old }) (record { left = S.left input.new; failed = S.fault_count input.new; view = V.view_of vault.new }) result }
{
    let mut incoming = incoming;
    let mut store = store;
    let pairs = store_pairs(&mut incoming, input, &mut store, vault, how);
    let closing = store.close_file(vault);
    end_of(pairs, closing)
}

// The same for a dump whose head came.
fn pour_begun<S: Source, V: Vault>(
    front: Front,
    how: How,
    store: Store,
    input: &mut S,
    vault: &mut V,
) -> LoadEnd
    requires loading { IsLoading (V.view_of vault.old) store }
    requires ended { EndsWith (front_ended front) (S.left input.old) }
    ensures { PouredFront how store front (record { left = S.left input.old; failed = S.fault_count input.old; view = V.view_of vault.old }) (record { left = S.left input.new; failed = S.fault_count input.new; view = V.view_of vault.new }) result }
{
    match front {
        Front::Ascii(incoming) => pour(incoming, how, store, input, vault),
        Front::Binary(incoming) => pour(incoming, how, store, input, vault),
    }
}

/// Loads a dump into a database: reads its head, opens the database, stores each pair as it comes, and closes.
///
/// The name is the one that is given, else that of the head. `used` is the file that the dump is read from, if it is one
/// of the vault's. A fault of the head leaves the vault as it was; the pairs before a stop stay stored.
pub fn load<S: Source, V: Vault>(
    alloc: Global,
    plan: Plan,
    name: Option<Name>,
    used: Option<FileId>,
    input: &mut S,
    vault: &mut V,
) -> LoadEnd
    requires block { plan.block ≤ 1048576 }
    requires least { 1 ≤ plan.cache }
    requires most { plan.cache ≤ 4096 }
    ensures { LoadsAs plan name used (record { left = S.left input.old; failed = S.fault_count input.old; view = V.view_of vault.old }) (record { left = S.left input.new; failed = S.fault_count input.new; view = V.view_of vault.new }) result }
{
    let begun = match start(alloc, input) {
        Ok(begun) => begun,
        Err(stop) => return LoadEnd::Head(stop),
    };
    let name = match name_for(alloc, name, &begun.head) {
        Ok(Some(name)) => name,
        Ok(None) => return LoadEnd::Unnamed(begun.place),
        Err(OutOfMemory) => return LoadEnd::Opening(DbError::OutOfMemory),
    };
    match enter(alloc, plan, format_for(&begun.head), used, &name, vault) {
        Ok(store) => pour_begun(begun.front, plan.how, store, input, vault),
        Err(error) => LoadEnd::Opening(error),
    }
}
