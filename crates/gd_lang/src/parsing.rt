//! Tokens to commands.

ghost use Rattle.std.specs.Prelude.{◌≡◌, ◌∷◌, ◌++◌, [], IfOk, MatchResult, Ok};
ghost use Rattle.std.specs.Option.{option_copied};
ghost use Rattle.gd_lang.specs.Commands.{both, braced_of, command_of, data_of, ended, lone_word, maybe_data, maybe_name, maybe_setting, number_of, one_data, row_command, two_data, two_numbers, word_in};
ghost use Rattle.gd_lang.specs.Limits.{IsProper};
ghost use Rattle.gd_lang.specs.Refusals.{Answers, Refuses};
ghost use Rattle.gd_lang.specs.declared.rows.Row.{Row};
ghost use Rattle.gd_lang.specs.declared.errors.LangError.{LangError};

use crate::rows::{Row, find_command, row_of};
use crate::values::{name_of, number_up_to, setting_of};
use crate::{Command, LangError, Setting, Token, Tokens};
use gd_base::{Datum, Name};
use gd_types::{Found, Words};
use std::alloc::Global;

/// The greatest number of records of a `fill`.
const MOST_RECORDS: u64 = 1_000_000;

/// Puts a copy of a word behind others. After want of memory the words stay.
fn push_copy(alloc: Global, words: &mut Words, word: &Datum) -> Result<(), LangError>
    ensures { MatchResult result (λ _. words.new ≡ words.old ++ word.now ∷ []) (λ e. e ≡ LangError.OutOfMemory) }
{
    let Ok(copy) = Datum::from_slice(alloc, word.as_slice()) else {
        return Err(LangError::OutOfMemory);
    };
    match words.push(copy) {
        Ok(()) => Ok(()),
        Err(_) => Err(LangError::OutOfMemory),
    }
}

/// The words behind a left brace up to the right one, and what stands behind it.
fn braced<'a>(alloc: Global, tokens: &'a [Token]) -> Result<(Words, &'a [Token]), LangError>
    ensures { MatchResult result (λ read. braced_of tokens.now ≡ Ok (read.0, read.1.now)) (λ e. Refuses e (braced_of tokens.now)) }
{
    let mut words = Words::new(alloc);
    let mut left = tokens;
    while let [first, mark, behind @ ..] = left {
        let Token::Word(word) = first else {
            return Err(LangError::Arguments);
        };
        push_copy(alloc, &mut words, word)?;
        match mark {
            Token::Comma => left = behind,
            Token::RightBrace => return Ok((words, behind)),
            Token::Word(_) | Token::LeftBrace => return Err(LangError::Arguments),
        }
    }
    Err(LangError::Arguments)
}

/// The words of a DATA, and what stands behind it.
fn data<'a>(alloc: Global, tokens: &'a [Token]) -> Result<(Words, &'a [Token]), LangError>
    ensures { MatchResult result (λ read. data_of tokens.now ≡ Ok (read.0, read.1.now)) (λ e. Refuses e (data_of tokens.now)) }
{
    let [first, rest @ ..] = tokens else {
        return Err(LangError::Arguments);
    };
    match first {
        Token::Word(word) => {
            let mut words = Words::new(alloc);
            push_copy(alloc, &mut words, word)?;
            Ok((words, rest))
        }
        Token::LeftBrace => braced(alloc, rest),
        Token::RightBrace | Token::Comma => Err(LangError::Arguments),
    }
}

fn one_data(alloc: Global, arguments: &[Token]) -> Result<Words, LangError>
    ensures { Answers result (one_data arguments.now) }
{
    let (words, rest) = data(alloc, arguments)?;
    if rest.is_empty() {
        Ok(words)
    } else {
        Err(LangError::Arguments)
    }
}

fn two_data(alloc: Global, arguments: &[Token]) -> Result<(Words, Words), LangError>
    ensures { Answers result (two_data arguments.now) }
{
    let (key, rest) = data(alloc, arguments)?;
    let content = one_data(alloc, rest)?;
    Ok((key, content))
}

fn maybe_data(alloc: Global, arguments: &[Token]) -> Result<Option<Words>, LangError>
    ensures { Answers result (maybe_data arguments.now) }
{
    if arguments.is_empty() {
        return Ok(None);
    }
    Ok(Some(one_data(alloc, arguments)?))
}

fn word_in(token: &Token) -> Option<&[u8]>
    ensures { option_copied result ≡ word_in token.now }
{
    match token {
        Token::Word(word) => Some(word.as_slice()),
        Token::LeftBrace | Token::RightBrace | Token::Comma => None,
    }
}

/// A word, or nothing where there are no tokens.
fn lone_word(arguments: &[Token]) -> Result<Option<&[u8]>, LangError>
    ensures { MatchResult result (λ word. lone_word arguments.now ≡ Ok (option_copied word)) (λ e. Refuses e (lone_word arguments.now)) }
{
    match arguments {
        [] => Ok(None),
        [token] => match word_in(token) {
            Some(word) => Ok(Some(word)),
            None => Err(LangError::Arguments),
        },
        _ => Err(LangError::Arguments),
    }
}

fn maybe_name(alloc: Global, arguments: &[Token]) -> Result<Option<Name>, LangError>
    ensures { Answers result (maybe_name arguments.now) }
{
    match lone_word(arguments)? {
        Some(word) => Ok(Some(name_of(alloc, word)?)),
        None => Ok(None),
    }
}

fn maybe_setting(alloc: Global, arguments: &[Token]) -> Result<Option<Setting>, LangError>
    ensures { Answers result (maybe_setting arguments.now) }
{
    match lone_word(arguments)? {
        Some(word) => Ok(Some(setting_of(alloc, word)?)),
        None => Ok(None),
    }
}

/// The number of a word, up to the highest one that is taken.
fn number_of(highest: u64, token: &Token) -> Option<u64>
    ensures { result ≡ number_of highest token.now }
{
    match token {
        Token::Word(word) => number_up_to(highest, word.as_slice()),
        Token::LeftBrace | Token::RightBrace | Token::Comma => None,
    }
}

fn both(start: Option<u64>, count: Option<u64>) -> Result<(u64, u64), LangError>
    ensures { result ≡ both start count }
{
    match start {
        Some(start) => match count {
            Some(count) => Ok((start, count)),
            None => Err(LangError::Arguments),
        },
        None => Err(LangError::Arguments),
    }
}

fn two_numbers(arguments: &[Token]) -> Result<(u64, u64), LangError>
    ensures { result ≡ two_numbers arguments.now }
{
    match arguments {
        [start, count] => both(number_of(u64::MAX, start), number_of(MOST_RECORDS, count)),
        _ => Err(LangError::Arguments),
    }
}

/// The command where nothing more comes.
fn alone(command: Command, arguments: &[Token]) -> Result<Command, LangError>
    ensures { Answers result (ended command arguments.now) }
{
    if arguments.is_empty() {
        Ok(command)
    } else {
        Err(LangError::Arguments)
    }
}

fn fill(arguments: &[Token]) -> Result<Command, LangError>
    ensures { Answers result (row_command Row.Fill arguments.now) }
{
    let (start, count) = two_numbers(arguments)?;
    Ok(Command::Fill(start, count))
}

/// The command of a row. One that is not built is refused whatever the arguments are.
fn row_command(alloc: Global, row: Row, arguments: &[Token]) -> Result<Command, LangError>
    ensures { Answers result (row_command row arguments.now) }
{
    match row {
        Row::Unbuilt => Err(LangError::Unbuilt),
        Row::Close => alone(Command::Close, arguments),
        Row::Count => alone(Command::Count, arguments),
        Row::Delete => Ok(Command::Delete(one_data(alloc, arguments)?)),
        Row::Fetch => Ok(Command::Fetch(one_data(alloc, arguments)?)),
        Row::Fill => fill(arguments),
        Row::First => alone(Command::First, arguments),
        Row::Insert => {
            let (key, content) = two_data(alloc, arguments)?;
            Ok(Command::Insert(key, content))
        }
        Row::ListAll => alone(Command::List, arguments),
        Row::Next => Ok(Command::Next(maybe_data(alloc, arguments)?)),
        Row::Open => Ok(Command::Open(maybe_name(alloc, arguments)?)),
        Row::Quit => alone(Command::Quit, arguments),
        Row::Set => Ok(Command::Set(maybe_setting(alloc, arguments)?)),
        Row::Store => {
            let (key, content) = two_data(alloc, arguments)?;
            Ok(Command::Store(key, content))
        }
        Row::Version => alone(Command::Version, arguments),
    }
}

// The command of tokens: its name is looked at first.
fn parse_tokens(alloc: Global, tokens: &Tokens) -> Result<Command, LangError>
    ensures { Answers result (command_of tokens.now) }
{
    let [first, arguments @ ..] = tokens.as_slice() else {
        return Ok(Command::Nothing);
    };
    let Some(word) = word_in(first) else {
        return Err(LangError::UnknownCommand);
    };
    match find_command(word) {
        Found::Missing => Err(LangError::UnknownCommand),
        Found::Several => Err(LangError::Ambiguous),
        Found::One(row) => row_command(alloc, row_of(row), arguments),
    }
}

/// The command of a line's tokens, whose first word is the front of its name. Its name is looked at first, then whether it is
/// built, and then its arguments; want of memory may be answered for any tokens. Names, numbers and values of a command are
/// within the limits of the language.
pub fn parse(alloc: Global, tokens: &Tokens) -> Result<Command, LangError>
    ensures answers { Answers result (command_of tokens.now) }
    ensures proper { IfOk result IsProper }
{
    parse_tokens(alloc, tokens)
}
