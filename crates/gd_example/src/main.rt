//! An example: makes a database, stores in it, looks up, goes over all its records, and closes it.
//!
//! The vault is one in memory. Over `gd_host::HostVault` the same calls work on files.
#![tactic(auto)]

ghost use Rattle.gd_example.specs.Open.{IsOpen};

use gd_base::{Datum, DbError, Format, Name};
use gd_memvault::MemVault;
use gd_store::{How, Store};
use gd_vault::Vault;
use std::process::ExitCode;

const PAIRS: [(&[u8], &[u8]); 3] = [
    (b"postmaster", b"root@example.org"),
    (b"root", b"grace@example.org"),
    (b"grace", b"grace@example.net"),
];

fn fill<V: Vault>(store: &mut Store, vault: &mut V) -> Result<(), DbError>
    requires { IsOpen (V.view_of vault.old) store.old }
    ensures { IsOpen (V.view_of vault.new) store.new }
{
    for (key, value) in PAIRS {
        store.store(vault, key, value, How::Insert)?;
    }
    Ok(())
}

fn show(rt: &HostRuntime, key: &[u8], value: &[u8]) {
    let key = std::str::from_utf8(key).unwrap_or("?");
    let value = std::str::from_utf8(value).unwrap_or("?");
    let _ = println!(rt; "{key} {value}");
}

// Shows the pair of a key, and answers the key behind it.
fn show_pair<V: Vault>(
    rt: &HostRuntime,
    store: &mut Store,
    vault: &mut V,
    key: &[u8],
) -> Result<Datum, DbError>
    requires { IsOpen (V.view_of vault.old) store.old }
    ensures { IsOpen (V.view_of vault.new) store.new }
{
    let value = store.fetch(vault, key)?;
    show(rt, key, value.as_slice());
    store.next(vault, key)
}

// Shows all pairs, in the order of the file.
fn show_all<V: Vault>(rt: &HostRuntime, store: &mut Store, vault: &mut V) -> Result<(), DbError>
    requires { IsOpen (V.view_of vault.old) store.old }
    ensures { IsOpen (V.view_of vault.new) store.new }
{
    let count = store.count(vault)?;
    let mut key = store.first(vault)?;
    for _ in 1..count {
        key = show_pair(rt, store, vault, key.as_slice())?;
    }
    match show_pair(rt, store, vault, key.as_slice()) {
        Err(DbError::ItemNotFound) => Ok(()),
        Ok(_) => Ok(()),
        Err(error) => Err(error),
    }
}

fn run<V: Vault>(rt: &HostRuntime, vault: &mut V, name: &Name) -> Result<(), DbError> {
    let mut store = Store::create(rt.alloc(), vault, name, 512, Format::Standard, 100)?;
    fill(&mut store, vault)?;
    store.delete(vault, b"grace")?;
    show_all(rt, &mut store, vault)?;
    store.close_file(vault)
}

fn main(rt: HostRuntime) -> ExitCode {
    let mut vault = MemVault::plain(rt.alloc());
    let Ok(name) = Name::new(rt.alloc(), "aliases.gdbm") else {
        return ExitCode::from(2);
    };
    match run(&rt, &mut vault, &name) {
        Ok(()) => ExitCode::from(0),
        Err(error) => {
            let _ = println!(rt; "{error:?}");
            ExitCode::from(1)
        }
    }
}
