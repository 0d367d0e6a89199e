//! A run of the loader over a vault, with input and standard error in memory.

ghost use Rattle.std.specs.Prelude.{◌≡◌, None};

use gd_base::{CallList, Datum, DbError, MemSink, MemSource, Name, Source};
use gd_loader::load_run;
use gd_memvault::MemVault;
use gd_store::{Access, Store};
use gd_vault::{Mode, Vault};
use std::alloc::Global;
use std::test::Fail;

/// A dump with the record `k`, `v`, as `gdbm_dump` prints it of `a.gdbm`.
pub const DUMP: &[u8] =
    b"# GDBM dump file created by gdbm_dump\n#:version=1.1\n#:file=a.gdbm\n#:format=standard\n# End of header\n#:len=1\naw==\n#:len=1\ndg==\n#:count=1\n# End of data\n";

/// The first bytes of the dump.
pub fn front(n: usize) -> &'static [u8] {
    DUMP.get(..n).unwrap_or(DUMP)
}

/// How a run ended.
#[derive(Drop)]
pub struct Told {
    pub status: u8,
    pub said: Vec<u8>,
}

/// A name of a file.
pub fn named(alloc: Global, text: &str) -> Result<Name, Fail> {
    match Name::new(alloc, text) {
        Ok(name) => Ok(name),
        Err(_) => Err("no name".into()),
    }
}

/// A list of calls.
pub fn calls(alloc: Global, numbers: &[u64]) -> Result<CallList, Fail> {
    Ok(CallList::from_slice(alloc, numbers)?)
}

/// A source that fails at these calls.
pub fn source(alloc: Global, bytes: &[u8], fails: &[u64]) -> Result<MemSource, Fail> {
    let bytes = Datum::from_slice(alloc, bytes)?;
    Ok(MemSource::new(bytes, calls(alloc, fails)?))
}

fn words_of(alloc: Global, words: &[&str]) -> Result<Vec<String>, Fail> {
    let mut all = Vec::new(alloc);
    for word in words {
        all.push(String::from_str(alloc, word)?)?;
    }
    Ok(all)
}

/// Runs the loader; standard error fails at these calls.
pub fn run<S: Source, V: Vault>(
    alloc: Global,
    words: &[&str],
    input: &mut S,
    err_fails: &[u64],
    vault: &mut V,
) -> Result<Told, Fail> {
    let words = words_of(alloc, words)?;
    let mut err = MemSink::new(alloc, calls(alloc, err_fails)?);
    let status = load_run(alloc, &words, input, &mut err, vault);
    Ok(Told {
        status,
        said: err.bytes().to_vec(alloc)?,
    })
}

/// Runs the loader over an input.
pub fn load(
    alloc: Global,
    words: &[&str],
    bytes: &[u8],
    vault: &mut MemVault,
) -> Result<Told, Fail> {
    let mut input = source(alloc, bytes, &[])?;
    run(alloc, words, &mut input, &[], vault)
}

/// Did a run end with this status, and was this said?
pub fn ended(told: &Told, status: u8, said: &[u8]) -> bool {
    told.status == status && told.said.as_slice() == said
}

/// Puts a file into a vault that keeps no history.
pub fn add(alloc: Global, vault: &mut MemVault, name: &str, bytes: &[u8]) -> Result<(), Fail>
    requires { vault.old.log ≡ None }
    ensures { vault.new.log ≡ None }
{
    let name = named(alloc, name)?;
    let bytes = Datum::from_slice(alloc, bytes)?;
    match vault.add_file(name, bytes, Mode::Both, 0) {
        Ok(_) => Ok(()),
        Err(_) => Err("no file".into()),
    }
}

/// How many records a database has, or none where it is not opened to write.
pub fn count(alloc: Global, vault: &mut MemVault, name: &str) -> Result<Option<u64>, Fail> {
    let name = named(alloc, name)?;
    let Ok(mut store) = Store::open_file(alloc, vault, &name, Access::Writer, 100) else {
        return Ok(None);
    };
    Ok(store.count(vault).ok())
}

/// The content of a key, or none where it is not there.
pub fn fetch(
    alloc: Global,
    vault: &mut MemVault,
    name: &str,
    key: &[u8],
) -> Result<Option<Datum>, Fail> {
    let name = named(alloc, name)?;
    let Ok(mut store) = Store::open_file(alloc, vault, &name, Access::Reader, 100) else {
        return Ok(None);
    };
    match store.fetch(vault, key) {
        Ok(value) => Ok(Some(value)),
        Err(DbError::ItemNotFound) => Ok(None),
        Err(_) => Err("no answer".into()),
    }
}

/// Has a database this content for a key?
pub fn has(
    alloc: Global,
    vault: &mut MemVault,
    name: &str,
    key: &[u8],
    value: &[u8],
) -> Result<bool, Fail> {
    match fetch(alloc, vault, name, key)? {
        Some(found) => Ok(found.as_slice() == value),
        None => Ok(false),
    }
}
