//! Calls on many files in turn.

use crate::calls::{Answer, named};
use gd_base::Name;
use gd_host::HostVault;
use gd_vault::{FileId, Mode, Vault};
use std::alloc::Global;
use std::test::Fail;

/// What is done with each of a hundred files, `many.0` to `many.99`.
#[derive(Clone, Copy)]
pub enum Round {
    /// Makes it, with its number as its id and as its one byte.
    Make,
    /// Looks it up, and reads its byte.
    Read,
    Remove,
}

fn numbered(alloc: Global, number: u8) -> Result<Name, Fail> {
    let text = format!(in alloc; "many.{number}")?;
    Ok(Name::new(alloc, text.as_str())?)
}

fn makes(vault: &mut HostVault<'_>, name: &Name, number: u8) -> bool {
    match vault.create(name, Mode::Both) {
        Ok(f) => f == FileId(u64::from(number)) && vault.write_at(f, 0, &[number]) == Ok(()),
        Err(_) => false,
    }
}

fn reads(vault: &mut HostVault<'_>, name: &Name, number: u8) -> bool {
    let mut buf = [0u8; 4];
    match vault.lookup(name) {
        Ok(Some(f)) => {
            f == FileId(u64::from(number))
                && vault.read_at(f, 0, &mut buf) == Ok(1)
                && buf[0] == number
        }
        _ => false,
    }
}

fn visits(vault: &mut HostVault<'_>, name: &Name, number: u8, round: Round) -> bool {
    match round {
        Round::Make => makes(vault, name, number),
        Round::Read => reads(vault, name, number),
        Round::Remove => vault.remove(name) == Ok(()),
    }
}

/// Does this with each file. `No` means that something else came of one.
pub fn visit_all(vault: &mut HostVault<'_>, alloc: Global, round: Round) -> Result<Answer, Fail> {
    for number in 0..100u8 {
        let name = numbered(alloc, number)?;
        if !visits(vault, &name, number, round) {
            return Ok(Answer::No);
        }
    }
    Ok(Answer::Done)
}

// Makes a file with three bytes, and puts it in the place of another.
fn renews(vault: &mut HostVault<'_>, file: &mut FileId, new: &Name, name: &Name) -> bool {
    match vault.create(new, Mode::Both) {
        Ok(f) => {
            *file = f;
            vault.write_at(f, 0, b"new") == Ok(()) && vault.replace(new, name) == Ok(())
        }
        Err(_) => false,
    }
}

/// Makes the file `export` anew 1,100 times, and keeps the id of the last. `No` means that a call failed.
pub fn renew_all(
    vault: &mut HostVault<'_>,
    alloc: Global,
    file: &mut FileId,
) -> Result<Answer, Fail> {
    let name = named(alloc, "export")?;
    let new = named(alloc, "export.new")?;
    for _round in 0..1100 {
        if !renews(vault, file, &new, &name) {
            return Ok(Answer::No);
        }
    }
    Ok(Answer::Done)
}
