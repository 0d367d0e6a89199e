//! Calls of a vault in memory on files by their names.

ghost use Rattle.std.specs.Prelude.{◌≡◌, IfOk, OnOk};
ghost use Rattle.gd_vault.specs.Views.{HasFile};
ghost use Rattle.gd_vault.specs.Changes.{HasName};
ghost use Rattle.gd_memvault.specs.Memory.{HasNoEvent, memory_told, memory_view};

use gd_base::{Datum, Failed, Name, Source, write_all};
use gd_memvault::MemVault;
use gd_vault::{FileId, Mode, Vault, VaultSink, VaultSource};
use std::alloc::Global;
use std::test::Fail;

/// A name of a file.
pub fn named(alloc: Global, text: &str) -> Result<Name, Fail> {
    Ok(Name::new(alloc, text)?)
}

// The file of a name.
fn file_of(vault: &mut MemVault, name: &Name) -> Result<FileId, Fail>
    ensures there { IfOk result (λ f. HasFile (memory_view vault.new) f.0) }
    ensures named { OnOk result (HasName (memory_view vault.new) name.now) }
    ensures told { OnOk result (memory_told vault.new ≡ memory_told vault.old) }
{
    match vault.lookup(name) {
        Ok(Some(f)) => Ok(f),
        Ok(None) => Err("no file".into()),
        Err(_) => Err("a fault".into()),
    }
}

fn file(vault: &mut MemVault, alloc: Global, text: &str) -> Result<FileId, Fail>
    ensures there { IfOk result (λ f. HasFile (memory_view vault.new) f.0) }
    ensures told { OnOk result (memory_told vault.new ≡ memory_told vault.old) }
{
    let name = named(alloc, text)?;
    file_of(vault, &name)
}

/// Puts a durable file with the stamp 5 there, before the first changing call, or none.
pub fn add(
    vault: &mut MemVault,
    alloc: Global,
    name: &str,
    bytes: Option<&[u8]>,
) -> Result<(), Fail>
    requires { HasNoEvent vault.old }
    ensures { OnOk result (vault.new.log ≡ vault.old.log) }
{
    let Some(bytes) = bytes else {
        return Ok(());
    };
    let name = named(alloc, name)?;
    vault.add_file(name, Datum::from_slice(alloc, bytes)?, Mode::Both, 5)?;
    Ok(())
}

/// Writes at a place.
pub fn write(
    vault: &mut MemVault,
    alloc: Global,
    name: &str,
    at: u32,
    bytes: &[u8],
) -> Result<Result<(), Failed>, Fail> {
    let f = file(vault, alloc, name)?;
    Ok(vault.write_at(f, u64::from(at), bytes))
}

/// Clones with the stamp 77.
pub fn clone(
    vault: &mut MemVault,
    alloc: Global,
    dst: &str,
    src: &str,
) -> Result<Result<(), Failed>, Fail> {
    let from = file(vault, alloc, src)?;
    let to = file(vault, alloc, dst)?;
    Ok(vault.clone_into(to, from, 77))
}

/// Closes a file for writing.
pub fn close(vault: &mut MemVault, alloc: Global, name: &str) -> Result<Result<(), Failed>, Fail> {
    let f = file(vault, alloc, name)?;
    Ok(vault.set_mode(f, Mode::ReadOnly))
}

/// Makes a file durable.
pub fn sync(vault: &mut MemVault, alloc: Global, name: &str) -> Result<Result<(), Failed>, Fail> {
    let f = file(vault, alloc, name)?;
    Ok(vault.sync(f))
}

/// Makes a name stand for the file of another.
pub fn replace(
    vault: &mut MemVault,
    alloc: Global,
    from: &str,
    to: &str,
) -> Result<Result<(), Failed>, Fail> {
    let from = named(alloc, from)?;
    let to = named(alloc, to)?;
    file_of(vault, &from)?;
    Ok(vault.replace(&from, &to))
}

/// Has a file these bytes?
pub fn holds(vault: &mut MemVault, alloc: Global, name: &str, bytes: &[u8]) -> Result<bool, Fail> {
    let f = file(vault, alloc, name)?;
    Ok(vault.bytes(f) == bytes)
}

/// The mode, the stamp and the length of a file.
pub fn marks(vault: &mut MemVault, alloc: Global, name: &str) -> Result<(Mode, u64, u64), Fail> {
    let f = file(vault, alloc, name)?;
    let mode = vault.mode(f).map_err(|_| "a mode")?;
    let f = file(vault, alloc, name)?;
    let stamp = vault.stamp(f).map_err(|_| "a stamp")?;
    let f = file(vault, alloc, name)?;
    let len = vault.len(f).map_err(|_| "a length")?;
    Ok((mode, stamp, len))
}

/// Writes through a sink from place 3 on into a file of five bytes, and answers the place behind what was written.
pub fn put(vault: &mut MemVault, alloc: Global, name: &str, bytes: &[u8]) -> Result<u64, Fail> {
    let f = file(vault, alloc, name)?;
    if vault.len(f) != Ok(5) {
        return Err("the length".into());
    }
    let mut sink = VaultSink::new(vault, f, 3);
    write_all(&mut sink, bytes).map_err(|_| "a write")?;
    Ok(sink.place())
}

/// Reads through a source from place 2 on, and answers how many bytes came.
pub fn take(
    vault: &mut MemVault,
    alloc: Global,
    name: &str,
    buf: &mut [u8],
) -> Result<usize, Fail> {
    let f = file(vault, alloc, name)?;
    let mut source = VaultSource::new(vault, f, 2);
    let count = source.read(buf).map_err(|_| "a read")?;
    Ok(count)
}
