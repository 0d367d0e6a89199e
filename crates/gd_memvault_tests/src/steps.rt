//! A call of a vault in memory, or a look at it, as data.

use crate::files::{add, clone, close, holds, marks, named, put, replace, sync, take, write};
use gd_base::{CallList, Failed};
use gd_memvault::MemVault;
use gd_vault::{CreateError, Mode, Vault};
use std::alloc::Global;
use std::test::Fail;

/// What is looked at.
#[derive(Clone, Copy)]
pub enum Look {
    /// Does the name stand for a file?
    There(&'static str),
    /// Has the file these bytes?
    Bytes(&'static str, &'static [u8]),
    /// Has it this mode, this stamp and this length?
    Marks(&'static str, Mode, u64, u64),
}

/// What is done.
#[derive(Clone, Copy)]
pub enum Step {
    /// Goes on with a new vault that tells its history. It has the durable files `f` and `g` with these bytes, if any, and
    /// its calls with these numbers fail, counted from 0, with those that look a name up.
    Begin(Option<&'static [u8]>, Option<&'static [u8]>, &'static [u64]),
    Create(&'static str),
    Write(&'static str, u32, &'static [u8]),
    /// Into the first from the second.
    Clone(&'static str, &'static str),
    Close(&'static str),
    Sync(&'static str),
    SyncNames,
    /// The file of the first gets the second as its name.
    Replace(&'static str, &'static str),
    Remove(&'static str),
    /// Through a sink from place 3 on, with the place that it answers.
    Put(&'static str, &'static [u8], u64),
    /// Through a source from place 2 on, with the count that it answers and the buffer.
    Take(&'static str, usize, [u8; 8]),
    /// Is this the moment?
    Moment(u64),
    /// Are these the counts of faults and of calls that found no memory?
    Counts(u64, u64),
    See(Look),
    /// A look at the image that these choices give at a moment.
    Left(u64, &'static [u64], Look),
}

/// What came of a step.
#[derive(Clone, Copy, PartialEq, Eq)]
pub enum Answer {
    Done,
    Exists,
    Failed,
    /// It is so.
    Yes,
    No,
}

fn done(ended: Result<(), Failed>) -> Answer {
    match ended {
        Ok(()) => Answer::Done,
        Err(Failed) => Answer::Failed,
    }
}

fn is_so(holds: bool) -> Answer {
    if holds { Answer::Yes } else { Answer::No }
}

fn begin(
    alloc: Global,
    f: Option<&[u8]>,
    g: Option<&[u8]>,
    fails: &[u64],
) -> Result<MemVault, Fail> {
    let mut vault = MemVault::new(alloc);
    add(&mut vault, alloc, "f", f)?;
    add(&mut vault, alloc, "g", g)?;
    vault.fail_calls(CallList::from_slice(alloc, fails)?);
    Ok(vault)
}

fn create(vault: &mut MemVault, alloc: Global, name: &str) -> Result<Answer, Fail> {
    Ok(match vault.create(&named(alloc, name)?, Mode::Both) {
        Ok(_) => Answer::Done,
        Err(CreateError::Exists) => Answer::Exists,
        Err(CreateError::Failed) => Answer::Failed,
    })
}

fn is_there(vault: &mut MemVault, alloc: Global, name: &str) -> Result<Answer, Fail> {
    match vault.lookup(&named(alloc, name)?) {
        Ok(found) => Ok(is_so(found.is_some())),
        Err(Failed) => Ok(Answer::Failed),
    }
}

fn took(
    vault: &mut MemVault,
    alloc: Global,
    name: &str,
    count: usize,
    wanted: &[u8; 8],
) -> Result<Answer, Fail> {
    let mut buf = [0u8; 8];
    let came = take(vault, alloc, name, &mut buf)?;
    Ok(is_so(came == count && buf == *wanted))
}

fn see(vault: &mut MemVault, alloc: Global, look: Look) -> Result<Answer, Fail> {
    match look {
        Look::There(name) => is_there(vault, alloc, name),
        Look::Bytes(name, bytes) => Ok(is_so(holds(vault, alloc, name, bytes)?)),
        Look::Marks(name, mode, stamp, len) => {
            Ok(is_so(marks(vault, alloc, name)? == (mode, stamp, len)))
        }
    }
}

fn see_image(
    vault: &MemVault,
    alloc: Global,
    moment: u64,
    pick: &[u64],
    look: Look,
) -> Result<Answer, Fail> {
    if !vault.has_moment(moment) {
        return Err("a moment".into());
    }
    let mut left = vault.image_at(alloc, moment, pick)?;
    see(&mut left, alloc, look)
}

/// Does a step, and answers what came of it.
pub fn do_step(vault: &mut MemVault, alloc: Global, step: Step) -> Result<Answer, Fail> {
    match step {
        Step::Begin(f, g, fails) => {
            *vault = begin(alloc, f, g, fails)?;
            Ok(Answer::Done)
        }
        Step::Create(name) => create(vault, alloc, name),
        Step::Write(name, at, bytes) => Ok(done(write(vault, alloc, name, at, bytes)?)),
        Step::Clone(dst, src) => Ok(done(clone(vault, alloc, dst, src)?)),
        Step::Close(name) => Ok(done(close(vault, alloc, name)?)),
        Step::Sync(name) => Ok(done(sync(vault, alloc, name)?)),
        Step::SyncNames => Ok(done(vault.sync_names())),
        Step::Replace(from, to) => Ok(done(replace(vault, alloc, from, to)?)),
        Step::Remove(name) => Ok(done(vault.remove(&named(alloc, name)?))),
        Step::Put(name, bytes, place) => Ok(is_so(put(vault, alloc, name, bytes)? == place)),
        Step::Take(name, count, bytes) => took(vault, alloc, name, count, &bytes),
        Step::Moment(moment) => Ok(is_so(vault.moment() == moment)),
        Step::Counts(faults, starved) => Ok(is_so(
            vault.faults() == faults && vault.starved() == starved,
        )),
        Step::See(look) => see(vault, alloc, look),
        Step::Left(moment, pick, look) => see_image(vault, alloc, moment, pick, look),
    }
}
