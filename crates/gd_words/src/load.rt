//! The words of `gdbm_load`.

ghost use Rattle.std.specs.Prelude.{◌≡◌, map, option_map, string_bytes, IfOk, codes};
ghost use Rattle.clap.specs.Words.{app_of, first_value, found_of};
ghost use Rattle.gd_words.specs.Commands.{load_app, with_storing};
ghost use Rattle.gd_words.specs.Meaning.{IsSized, load_options, load_reading, source_of};
ghost use Rattle.gd_words.specs.Reads.{ReadsAs};

use crate::dump::name_or_none;
use crate::matching::{Refusal, behind, flag, is_set, name_of, parse};
use crate::numbers::number_or;
use crate::tool::with_numbers;
use clap::{Arg, ArgMatches, Command};
use gd_base::Name;
use std::alloc::{AllocError, Global};

/// What the words of `gdbm_load` ask for.
#[derive(Debug, Drop)]
pub struct LoadWords {
    /// The size of a block of a new file, in bytes, up to 1,048,576.
    pub block: u32,
    /// How many buckets are cached, 1 to 4,096.
    pub cache: u32,
    /// Do the pairs of the dump take the place of those that are there?
    pub replace: bool,
    /// Is a database that is there kept, and not made anew?
    pub update: bool,
    /// Where the dump is, if not on standard input.
    pub input: Option<Name>,
    /// The database, if the dump's head isn't to name it.
    pub db: Option<Name>,
}

fn with_storing<'a>(alloc: Global, command: Command<'a>) -> Result<Command<'a>, AllocError>
    ensures { IfOk result (λ c. app_of c ≡ with_storing (app_of command.entry)) }
{
    command
        .arg(flag(alloc, "nometa", 'n', "no-meta"))?
        .arg(flag(alloc, "replace", 'r', "replace"))?
        .arg(flag(alloc, "update", 'U', "update"))
}

fn command<'a>(alloc: Global) -> Result<Command<'a>, AllocError>
    ensures { IfOk result (λ c. app_of c ≡ load_app) }
{
    let command = with_numbers(alloc, Command::new(alloc, "gdbm_load"))?;
    with_storing(alloc, command)?
        .arg(Arg::new(alloc, "input").required(true))?
        .arg(Arg::new(alloc, "db"))
}

fn source_of(alloc: Global, text: &str) -> Result<Option<Name>, Refusal>
    ensures { ReadsAs result (source_of text.now) }
{
    if text == "-" {
        return Ok(None);
    }
    match name_of(alloc, text) {
        Ok(name) => Ok(Some(name)),
        Err(refusal) => Err(refusal),
    }
}

fn options(alloc: Global, matches: &ArgMatches<'_>) -> Result<LoadWords, Refusal>
    ensures reads { ReadsAs result (load_options (first_value (found_of matches.now))) }
    ensures sizes { IfOk result (λ w. IsSized w.block w.cache) }
{
    let Some(block) = number_or(matches.get_str("block"), 0, 1_048_576, 0) else {
        return Err(Refusal::Usage);
    };
    let Some(cache) = number_or(matches.get_str("cache"), 1, 4096, 100) else {
        return Err(Refusal::Usage);
    };
    let Some(input) = matches.get_str("input") else {
        return Err(Refusal::Usage);
    };
    let input = source_of(alloc, input)?;
    let db = name_or_none(alloc, matches.get_str("db"))?;
    Ok(LoadWords {
        block,
        cache,
        replace: is_set(matches, "replace"),
        update: is_set(matches, "update"),
        input,
        db,
    })
}

/// What the words behind the name `gdbm_load` ask for.
pub fn load_words(alloc: Global, words: &[String]) -> Result<LoadWords, Refusal>
    ensures reads { ReadsAs result (load_reading (map string_bytes words.now)) }
    ensures sizes { IfOk result (λ w. IsSized w.block w.cache) }
{
    let Ok(all) = behind(alloc, "gdbm_load", words) else {
        return Err(Refusal::Memory);
    };
    let Ok(command) = command(alloc) else {
        return Err(Refusal::Memory);
    };
    match parse(command, &all) {
        Ok(matches) => options(alloc, &matches),
        Err(refusal) => Err(refusal),
    }
}
