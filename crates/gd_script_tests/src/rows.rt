//! A script with all that it writes and answers, as a row of a table.

use crate::play::{Played, Trial, no_fails, play};
use gd_base::DbError;
use gd_lang::{LangError, Opening};
use gd_memvault::MemVault;
use gd_script::{Answer, Faults, Turn};
use gd_session::Reply;
use gd_types::TypeError;
use gd_vault::Vault;
use std::alloc::Global;
use std::test::Fail;

/// A script, what it writes, its status and its answers.
#[derive(Clone, Copy)]
pub struct Row<'a> {
    pub lines: &'a [u8],
    pub out: &'a [u8],
    pub err: &'a [u8],
    pub status: u8,
    pub answers: &'a [Answer],
}

pub const NOTHING: Answer = Answer::Nothing;

pub const DONE: Answer = Answer::Command(Reply::Done);

pub const QUIT: Answer = Answer::Command(Reply::Quit);

pub const ARGUMENTS: Answer = Answer::Lang(LangError::Arguments);

pub const UNBUILT: Answer = Answer::Lang(LangError::Unbuilt);

pub const UNKNOWN: Answer = Answer::Lang(LangError::UnknownCommand);

pub const AMBIGUOUS: Answer = Answer::Lang(LangError::Ambiguous);

pub const QUOTE: Answer = Answer::Lang(LangError::Quote);

pub const ESCAPE: Answer = Answer::Lang(LangError::Escape);

pub const TEXT: Answer = Answer::Command(Reply::Typed(TypeError::Text));

pub const ABSENT: Answer = Answer::Command(Reply::Refused(DbError::Absent));

pub const NOT_OPEN: Answer = Answer::Command(Reply::Refused(DbError::NotOpen));

pub const NOT_FOUND: Answer = Answer::Command(Reply::Refused(DbError::ItemNotFound));

pub const CANNOT_REPLACE: Answer = Answer::Command(Reply::Refused(DbError::CannotReplace));

pub const READER_CANT: Answer = Answer::Command(Reply::Refused(DbError::ReaderCant));

pub const OVERFLOW: Answer = Answer::Command(Reply::Refused(DbError::DirOverflow));

// The turn of an answer over a vault without moments, in which no device failed.
fn quiet(answer: Answer) -> Turn {
    Turn {
        answer,
        done: 0,
        faults: Faults {
            input: 0,
            out: 0,
            err: 0,
            vault: 0,
            clock: 0,
        },
        reading: None,
    }
}

/// Are the turns those of these answers, with no device that failed?
pub fn are_quiet(turns: &[Turn], answers: &[Answer]) -> bool {
    if turns.len() != answers.len() {
        return false;
    }
    turns
        .iter()
        .zip(answers.iter())
        .all(|(turn, answer)| *turn == quiet(*answer))
}

/// Did a run leave what the row says?
pub fn is_row(played: &Played, row: &Row) -> bool {
    played.out.bytes() == row.out
        && played.err.bytes() == row.err
        && played.script.status == row.status
        && are_quiet(played.script.turns.as_slice(), row.answers)
}

/// Runs a row's script over a vault, and answers whether it left what the row says.
pub fn holds_over<V: Vault>(
    alloc: Global,
    vault: &mut V,
    opening: Opening,
    block: u32,
    row: &Row,
) -> Result<bool, Fail> {
    let script = Trial {
        opening,
        block,
        lines: row.lines,
        fails: no_fails(),
    };
    let played = play(alloc, vault, &script)?;
    Ok(is_row(&played, row))
}

/// The same over a new vault, in which no name stands for a file.
pub fn holds(alloc: Global, opening: Opening, block: u32, row: &Row) -> Result<bool, Fail> {
    let mut vault = MemVault::plain(alloc);
    holds_over(alloc, &mut vault, opening, block, row)
}
