//! The words of `gdbm_dump`.

ghost use Rattle.std.specs.Prelude.{◌≡◌, map, option_map, string_bytes, IfOk, codes};
ghost use Rattle.clap.specs.Words.{app_of, first_value, found_of};
ghost use Rattle.gd_words.specs.Commands.{dump_app};
ghost use Rattle.gd_words.specs.Meaning.{dump_options, dump_reading, form_of, named_or_none};
ghost use Rattle.gd_words.specs.Reads.{ReadsAs};

use crate::matching::{Refusal, behind, name_of, option, parse};
use clap::{Arg, ArgMatches, Command};
use gd_base::Name;
use std::alloc::{AllocError, Global};

/// The form of a dump.
#[derive(Clone, Copy, Debug, PartialEq, Eq)]
pub enum Form {
    Ascii,
    Binary,
}

/// What the words of `gdbm_dump` ask for.
#[derive(Debug, Drop)]
pub struct DumpWords {
    pub form: Form,
    pub db: Name,
    /// Where the dump goes, if not to standard output.
    pub file: Option<Name>,
}

fn command<'a>(alloc: Global) -> Result<Command<'a>, AllocError>
    ensures { IfOk result (λ c. app_of c ≡ dump_app) }
{
    Command::new(alloc, "gdbm_dump")
        .arg(option(alloc, "format", 'H', "format"))?
        .arg(Arg::new(alloc, "db").required(true))?
        .arg(Arg::new(alloc, "file"))
}

fn form_of(text: Option<&str>) -> Option<Form>
    ensures { result ≡ form_of (option_map (λ s. s.now) text.entry) }
{
    match text {
        None => Some(Form::Ascii),
        Some("ascii" | "1") => Some(Form::Ascii),
        Some("binary" | "0") => Some(Form::Binary),
        Some(_) => None,
    }
}

/// The name that a word gives, where there is one.
pub(crate) fn name_or_none(alloc: Global, text: Option<&str>) -> Result<Option<Name>, Refusal>
    ensures { ReadsAs result (named_or_none (option_map (λ s. s.now) text.entry)) }
{
    match text {
        None => Ok(None),
        Some(text) => match name_of(alloc, text) {
            Ok(name) => Ok(Some(name)),
            Err(refusal) => Err(refusal),
        },
    }
}

fn options(alloc: Global, matches: &ArgMatches<'_>) -> Result<DumpWords, Refusal>
    ensures { ReadsAs result (dump_options (first_value (found_of matches.now))) }
{
    let Some(form) = form_of(matches.get_str("format")) else {
        return Err(Refusal::Usage);
    };
    let Some(db) = matches.get_str("db") else {
        return Err(Refusal::Usage);
    };
    let db = name_of(alloc, db)?;
    let file = name_or_none(alloc, matches.get_str("file"))?;
    Ok(DumpWords { form, db, file })
}

/// What the words behind the name `gdbm_dump` ask for.
pub fn dump_words(alloc: Global, words: &[String]) -> Result<DumpWords, Refusal>
    ensures { ReadsAs result (dump_reading (map string_bytes words.now)) }
{
    let Ok(all) = behind(alloc, "gdbm_dump", words) else {
        return Err(Refusal::Memory);
    };
    let Ok(command) = command(alloc) else {
        return Err(Refusal::Memory);
    };
    match parse(command, &all) {
        Ok(matches) => options(alloc, &matches),
        Err(refusal) => Err(refusal),
    }
}
