//! What the three readers share: options and flags, the matches of `clap`, and names.

ghost use Rattle.std.specs.Prelude.{◌≡◌, ◌≢◌, ◌∷◌, ◌++◌, [], true, false, string_bytes, map, IfOk};
ghost use Rattle.clap.specs.Words.{app_of, rule_of, first_value, found_of, is_simple_and_free};
ghost use Rattle.clap.specs.Values.{kind_of};
ghost use Rattle.gd_words.specs.Commands.{flag_rule, option_rule};
ghost use Rattle.gd_words.specs.Meaning.{is_true, named};
ghost use Rattle.gd_words.specs.Reads.{ParsesAs, ReadsAs, texts};

use clap::error::ErrorKind;
use clap::{Arg, ArgAction, ArgMatches, Command};
use gd_base::{Name, NameError};
use std::alloc::{AllocError, Global};

/// Why words are not read.
#[derive(Clone, Copy, Debug, PartialEq, Eq)]
pub enum Refusal {
    /// They are refused.
    Usage,
    /// No memory was found.
    Memory,
}

/// An option with a value.
pub(crate) fn option<'a>(alloc: Global, id: &'a str, short: char, long: &'a str) -> Arg<'a>
    ensures rule { rule_of result ≡ option_rule id.entry.now short long.entry.now }
    ensures local { result.global ≡ false }
{
    Arg::new(alloc, id).short(short).long(long)
}

/// An option without a value.
pub(crate) fn flag<'a>(alloc: Global, id: &'a str, short: char, long: &'a str) -> Arg<'a>
    ensures rule { rule_of result ≡ flag_rule id.entry.now short long.entry.now }
    ensures local { result.global ≡ false }
{
    Arg::new(alloc, id)
        .short(short)
        .long(long)
        .action(ArgAction::SetTrue)
}

/// Was a flag given?
pub(crate) fn is_set(matches: &ArgMatches<'_>, id: &str) -> bool
    ensures { result ≡ is_true (first_value (found_of matches.now) id.now) }
{
    match matches.get_str(id) {
        Some(text) => text == "true",
        None => false,
    }
}

/// The tool's name and the words behind it.
pub(crate) fn behind<'a>(
    alloc: Global,
    tool: &'a str,
    words: &'a [String],
) -> Result<Vec<&'a str>, AllocError>
    ensures { IfOk result (λ all. texts all.items ≡ tool.entry.now ∷ map string_bytes words.entry.now) }
{
    let mut all = Vec::new(alloc);
    all.push(tool)?;
    for word in words {
        all.push(word.as_str())?;
    }
    Ok(all)
}

fn refusal_of(kind: ErrorKind) -> Refusal
    ensures { result ≡ Refusal.Usage → kind ≢ ErrorKind.OutOfMemory }
{
    match kind {
        ErrorKind::OutOfMemory => Refusal::Memory,
        _ => Refusal::Usage,
    }
}

/// The matches of a command, of whose words the first is the tool's name.
pub(crate) fn parse<'a>(
    command: Command<'a>,
    words: &'a [&'a str],
) -> Result<ArgMatches<'a>, Refusal>
    requires { is_simple_and_free (app_of command) ≡ true }
    ensures { ParsesAs (app_of command.entry) (texts words.entry.now) result }
{
    match command.try_get_matches_from(words) {
        Ok(matches) => Ok(matches),
        Err(error) => Err(refusal_of(error.kind())),
    }
}

/// The name that a word gives.
pub(crate) fn name_of(alloc: Global, text: &str) -> Result<Name, Refusal>
    ensures { ReadsAs result (named text.now) }
{
    match Name::new(alloc, text) {
        Ok(name) => Ok(name),
        Err(NameError::OutOfMemory) => Err(Refusal::Memory),
        Err(_) => Err(Refusal::Usage),
    }
}
