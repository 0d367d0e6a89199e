//! The words of `gdbmtool`.

ghost use Rattle.std.specs.Prelude.{◌≡◌, map, string_bytes, IfOk, codes};
ghost use Rattle.clap.specs.Words.{app_of, first_value, found_of};
ghost use Rattle.gd_words.specs.Commands.{tool_app, with_ignored, with_numbers, with_opening};
ghost use Rattle.gd_words.specs.Meaning.{IsSized, format_by, opening_by, tool_options, tool_reading};
ghost use Rattle.gd_words.specs.Reads.{ReadsAs};

use crate::matching::{Refusal, behind, flag, is_set, name_of, option, parse};
use crate::numbers::number_or;
use clap::{Arg, ArgMatches, Command};
use gd_base::{Format, Name};
use gd_lang::Opening;
use std::alloc::{AllocError, Global};

/// What the words of `gdbmtool` ask for: the first values of its variables, and the database.
#[derive(Debug, Drop)]
pub struct ToolWords {
    /// The size of a block of a new file, in bytes, up to 1,048,576.
    pub block: u32,
    /// How many buckets are cached, 1 to 4,096.
    pub cache: u32,
    pub opening: Opening,
    /// The format of a new file.
    pub format: Format,
    pub db: Name,
}

/// The command with the options for the size of a block and of the cache.
pub(crate) fn with_numbers<'a>(
    alloc: Global,
    command: Command<'a>,
) -> Result<Command<'a>, AllocError>
    ensures { IfOk result (λ c. app_of c ≡ with_numbers (app_of command.entry)) }
{
    command
        .arg(option(alloc, "block", 'b', "block-size"))?
        .arg(option(alloc, "cache", 'c', "cache-size"))
}

fn with_opening<'a>(alloc: Global, command: Command<'a>) -> Result<Command<'a>, AllocError>
    ensures { IfOk result (λ c. app_of c ≡ with_opening (app_of command.entry)) }
{
    command
        .arg(flag(alloc, "reader", 'r', "read-only"))?
        .arg(flag(alloc, "newdb", 'n', "newdb"))?
        .arg(flag(alloc, "extended", 'x', "extended"))
}

fn with_ignored<'a>(alloc: Global, command: Command<'a>) -> Result<Command<'a>, AllocError>
    ensures { IfOk result (λ c. app_of c ≡ with_ignored (app_of command.entry)) }
{
    command
        .arg(flag(alloc, "norc", 'N', "norc"))?
        .arg(flag(alloc, "quiet", 'q', "quiet"))
}

fn command<'a>(alloc: Global) -> Result<Command<'a>, AllocError>
    ensures { IfOk result (λ c. app_of c ≡ tool_app) }
{
    let command = with_numbers(alloc, Command::new(alloc, "gdbmtool"))?;
    let command = with_opening(alloc, command)?;
    with_ignored(alloc, command)?.arg(Arg::new(alloc, "db"))
}

fn opening_by(reader: bool, newdb: bool) -> Option<Opening>
    ensures { result ≡ opening_by reader newdb }
{
    match (reader, newdb) {
        (true, true) => None,
        (true, false) => Some(Opening::Reader),
        (false, true) => Some(Opening::NewDb),
        (false, false) => Some(Opening::WrCreat),
    }
}

fn format_by(extended: bool) -> Format
    ensures { result ≡ format_by extended }
{
    if extended {
        Format::Numsync
    } else {
        Format::Standard
    }
}

fn options(alloc: Global, matches: &ArgMatches<'_>) -> Result<ToolWords, Refusal>
    ensures reads { ReadsAs result (tool_options (first_value (found_of matches.now))) }
    ensures sizes { IfOk result (λ w. IsSized w.block w.cache) }
{
    let Some(block) = number_or(matches.get_str("block"), 0, 1_048_576, 0) else {
        return Err(Refusal::Usage);
    };
    let Some(cache) = number_or(matches.get_str("cache"), 1, 4096, 100) else {
        return Err(Refusal::Usage);
    };
    let Some(opening) = opening_by(is_set(matches, "reader"), is_set(matches, "newdb")) else {
        return Err(Refusal::Usage);
    };
    let format = format_by(is_set(matches, "extended"));
    let db = name_of(alloc, matches.get_str("db").unwrap_or("junk.gdbm"))?;
    Ok(ToolWords {
        block,
        cache,
        opening,
        format,
        db,
    })
}

/// What the words behind the name `gdbmtool` ask for.
pub fn tool_words(alloc: Global, words: &[String]) -> Result<ToolWords, Refusal>
    ensures reads { ReadsAs result (tool_reading (map string_bytes words.now)) }
    ensures sizes { IfOk result (λ w. IsSized w.block w.cache) }
{
    let Ok(all) = behind(alloc, "gdbmtool", words) else {
        return Err(Refusal::Memory);
    };
    let Ok(command) = command(alloc) else {
        return Err(Refusal::Memory);
    };
    match parse(command, &all) {
        Ok(matches) => options(alloc, &matches),
        Err(refusal) => Err(refusal),
    }
}
