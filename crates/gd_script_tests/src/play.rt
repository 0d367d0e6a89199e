//! A run of a script over a vault, with devices in memory.

ghost use Rattle.std.specs.Prelude.{◌≡◌, ◌≤◌, IfOk, OnOk};
ghost use Rattle.gd_session.specs.declared.phase.Phase.TheVariants.{Fresh};
ghost use Rattle.gd_vault.specs.Views.{HasFile};
ghost use Rattle.gd_memvault.specs.Memory.{HasNoEvent, memory_view};

use gd_base::{CallList, Datum, Format, MemClock, MemSink, MemSource, Name};
use gd_lang::Opening;
use gd_memvault::MemVault;
use gd_script::{Script, run_script};
use gd_session::{Session, Settings};
use gd_vault::{FileId, Mode, Vault};
use std::alloc::Global;
use std::test::Fail;

/// The numbers of the calls that are to fail, counted from 0 for each device.
#[derive(Clone, Copy)]
pub struct Fails<'a> {
    pub input: &'a [u64],
    pub out: &'a [u64],
    pub err: &'a [u64],
}

/// No call fails.
pub fn no_fails() -> Fails<'static> {
    Fails {
        input: &[],
        out: &[],
        err: &[],
    }
}

/// A script, and how its database `n` is opened.
#[derive(Clone, Copy)]
pub struct Trial<'a> {
    pub opening: Opening,
    /// The size of a block of new files; 512 where it is larger than 1,048,576.
    pub block: u32,
    pub lines: &'a [u8],
    pub fails: Fails<'a>,
}

/// What a run left.
#[derive(Drop)]
pub struct Played {
    pub script: Script,
    pub out: MemSink,
    pub err: MemSink,
}

/// A name of a file.
pub fn named(alloc: Global, text: &str) -> Result<Name, Fail> {
    match Name::new(alloc, text) {
        Ok(name) => Ok(name),
        Err(_) => Err("no name".into()),
    }
}

// The largest block that is asked for.
fn block_of(block: u32) -> u32
    ensures { result ≤ 1048576 }
{
    if block <= 1_048_576 { block } else { 512 }
}

// A session in which no database was opened yet.
fn session(alloc: Global, opening: Opening, block: u32) -> Result<Session, Fail>
    ensures { IfOk result (λ s. s.phase ≡ Fresh) }
{
    let settings = Settings {
        file: named(alloc, "n")?,
        opening,
        block: block_of(block),
        cache: 100,
        format: Format::Standard,
        delim: Datum::from_slice(alloc, b",")?,
    };
    match Session::new(alloc, settings) {
        Ok(session) => Ok(session),
        Err(_) => Err("no memory".into()),
    }
}

fn source(alloc: Global, bytes: &[u8], fails: &[u64]) -> Result<MemSource, Fail> {
    let bytes = Datum::from_slice(alloc, bytes)?;
    Ok(MemSource::new(bytes, CallList::from_slice(alloc, fails)?))
}

fn sink(alloc: Global, fails: &[u64]) -> Result<MemSink, Fail> {
    Ok(MemSink::new(alloc, CallList::from_slice(alloc, fails)?))
}

fn clock(alloc: Global) -> MemClock {
    MemClock::new(
        CallList::from(Vec::new(alloc)),
        CallList::from(Vec::new(alloc)),
    )
}

/// Runs a script over a vault.
pub fn play<V: Vault>(alloc: Global, vault: &mut V, trial: &Trial) -> Result<Played, Fail> {
    let mut input = source(alloc, trial.lines, trial.fails.input)?;
    let mut out = sink(alloc, trial.fails.out)?;
    let mut err = sink(alloc, trial.fails.err)?;
    let mut clock = clock(alloc);
    let mut session = session(alloc, trial.opening, trial.block)?;
    let script = run_script(
        alloc,
        &mut session,
        &mut input,
        &mut out,
        &mut err,
        vault,
        &mut clock,
    );
    Ok(Played { script, out, err })
}

/// A vault with one file, named `n`.
pub fn vault_with(alloc: Global, bytes: &[u8]) -> Result<MemVault, Fail> {
    let mut vault = MemVault::plain(alloc);
    let bytes = Datum::from_slice(alloc, bytes)?;
    let name = named(alloc, "n")?;
    match vault.add_file(name, bytes, Mode::Both, 0) {
        Ok(_) => Ok(vault),
        Err(_) => Err("no file".into()),
    }
}

// The file of a name.
fn file_of(vault: &mut MemVault, name: &Name) -> Result<FileId, Fail>
    ensures there { IfOk result (λ f. HasFile (memory_view vault.new) f.0) }
{
    match vault.lookup(name) {
        Ok(Some(f)) => Ok(f),
        Ok(None) => Err("no file".into()),
        Err(_) => Err("a fault".into()),
    }
}

/// The bytes of the file `n`.
pub fn bytes_of(alloc: Global, vault: &mut MemVault) -> Result<Vec<u8>, Fail> {
    let name = named(alloc, "n")?;
    let f = file_of(vault, &name)?;
    Ok(vault.bytes(f).to_vec(alloc)?)
}
