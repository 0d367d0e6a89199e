//! Calls of the host itself on its files.

use crate::calls::{Answer, is_so};
use std::fs;
use std::os::unix::fs::symlink;
use std::test::Fail;

/// What is done beside the vault.
#[derive(Clone, Copy)]
pub enum HostStep {
    Write(&'static str, &'static str),
    /// Has the file this text?
    Has(&'static str, &'static str),
    /// Does anything stand there, a link too?
    Stands(&'static str),
    /// Makes the second a link to the first.
    Link(&'static str, &'static str),
    /// Makes the second a further name of the file of the first.
    Name(&'static str, &'static str),
    /// Moves the first to the second.
    Move(&'static str, &'static str),
    Remove(&'static str),
    MakeFolder(&'static str),
    RemoveFolder(&'static str),
}

/// Does a step.
pub fn do_host_step(rt: &HostRuntime, step: HostStep) -> Result<Answer, Fail> {
    match step {
        HostStep::Write(path, text) => fs::write(rt, path, text)?,
        HostStep::Has(path, text) => {
            return Ok(is_so(fs::read_to_string(rt, path)?.as_str() == text));
        }
        HostStep::Stands(path) => return Ok(is_so(fs::symlink_metadata(rt, path).is_ok())),
        HostStep::Link(target, path) => symlink(rt, target, path)?,
        HostStep::Name(path, further) => fs::hard_link(rt, path, further)?,
        HostStep::Move(path, to) => fs::rename(rt, path, to)?,
        HostStep::Remove(path) => fs::remove_file(rt, path)?,
        HostStep::MakeFolder(path) => fs::create_dir(rt, path)?,
        HostStep::RemoveFolder(path) => fs::remove_dir(rt, path)?,
    }
    Ok(Answer::Done)
}
