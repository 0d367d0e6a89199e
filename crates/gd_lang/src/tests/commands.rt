use super::command_of;
use crate::{Command, LangError, Opening, Setting};
use gd_base::Format;
use gd_types::Words;
use std::alloc::Global;
use std::test::Fail;

fn put_words(text: &mut Vec<u8>, words: &Words) -> Result<(), Fail> {
    text.push(b' ')?;
    for word in words.as_slice() {
        text.extend_from_slice(word.as_slice())?;
        text.push(b';')?;
    }
    Ok(())
}

fn put_setting(text: &mut Vec<u8>, setting: &Setting) -> Result<(), Fail> {
    match setting {
        Setting::BlockSize(bytes) => text.extend_from_slice(if *bytes == 0 {
            b" none"
        } else {
            b" some"
        })?,
        Setting::CacheSize(_) => text.extend_from_slice(b" cache")?,
        Setting::Delim1(delim) => {
            text.push(b' ')?;
            text.extend_from_slice(delim.as_slice())?;
        }
        Setting::Format(Format::Standard) => text.extend_from_slice(b" standard")?,
        Setting::Format(Format::Numsync) => text.extend_from_slice(b" numsync")?,
        Setting::Opening(Opening::NewDb) => text.extend_from_slice(b" newdb")?,
        Setting::Opening(Opening::WrCreat) => text.extend_from_slice(b" wrcreat")?,
        Setting::Opening(Opening::Reader) => text.extend_from_slice(b" reader")?,
    }
    Ok(())
}

/// A command as a text.
fn shown(alloc: Global, command: &Command) -> Result<Vec<u8>, Fail> {
    let mut text = Vec::new(alloc);
    match command {
        Command::Nothing => {}
        Command::Open(None) => text.extend_from_slice(b"open")?,
        Command::Open(Some(name)) => {
            text.extend_from_slice(b"open ")?;
            text.extend_from_slice(name.as_str().as_bytes())?;
        }
        Command::Close => text.extend_from_slice(b"close")?,
        Command::Quit => text.extend_from_slice(b"quit")?,
        Command::Version => text.extend_from_slice(b"version")?,
        Command::Set(None) => text.extend_from_slice(b"set")?,
        Command::Set(Some(setting)) => {
            text.extend_from_slice(b"set")?;
            put_setting(&mut text, setting)?;
        }
        Command::Count => text.extend_from_slice(b"count")?,
        Command::Fetch(key) => {
            text.extend_from_slice(b"fetch")?;
            put_words(&mut text, key)?;
        }
        Command::First => text.extend_from_slice(b"first")?,
        Command::Next(None) => text.extend_from_slice(b"next")?,
        Command::Next(Some(key)) => {
            text.extend_from_slice(b"next")?;
            put_words(&mut text, key)?;
        }
        Command::List => text.extend_from_slice(b"list")?,
        Command::Store(key, content) => {
            text.extend_from_slice(b"store")?;
            put_words(&mut text, key)?;
            put_words(&mut text, content)?;
        }
        Command::Insert(key, content) => {
            text.extend_from_slice(b"insert")?;
            put_words(&mut text, key)?;
            put_words(&mut text, content)?;
        }
        Command::Delete(key) => {
            text.extend_from_slice(b"delete")?;
            put_words(&mut text, key)?;
        }
        Command::Fill(start, count) => {
            text.extend_from_slice(if *start == u64::MAX {
                b"fill max"
            } else {
                b"fill low"
            })?;
            text.extend_from_slice(if *count == 1_000_000 {
                b" most"
            } else {
                b" less"
            })?;
        }
    }
    Ok(text)
}

/// A line, and its command or its refusal.
type Row<'a> = (&'a [u8], Result<&'a [u8], LangError>);

const COMMANDS: [Row<'static>; 32] = [
    (b"", Ok(b"")),
    (b" # store", Ok(b"")),
    (b"open", Ok(b"open")),
    (b"o a.gdbm", Ok(b"open a.gdbm")),
    (b"close", Ok(b"close")),
    (b"q", Ok(b"quit")),
    (b"version", Ok(b"version")),
    (b"set", Ok(b"set")),
    (b"count", Ok(b"count")),
    (b"fet k", Ok(b"fetch k;")),
    (b"fetch {k}", Ok(b"fetch k;")),
    (b"fetch {a, \"b c\" ,d}", Ok(b"fetch a;b c;d;")),
    (b"first", Ok(b"first")),
    (b"next", Ok(b"next")),
    (b"n k", Ok(b"next k;")),
    (b"list\r", Ok(b"list")),
    (b"store k v", Ok(b"store k; v;")),
    (b"store {a,b} \"\"", Ok(b"store a;b; ;")),
    (b"ins k{v,w}", Ok(b"insert k; v;w;")),
    (b"delete \"\"", Ok(b"delete ;")),
    (b"fill 1 0", Ok(b"fill low less")),
    (b"fill 18446744073709551615 1000000", Ok(b"fill max most")),
    (b"\"op\"en a", Ok(b"open a")),
    (b"open \"a b\"", Ok(b"open a b")),
    (b"set delim1==,\"\\t\"", Err(LangError::Arguments)),
    (b"set delim1==\"\\t,\"", Ok(b"set =\t,")),
    (b"set delim1=", Ok(b"set ")),
    (b"set open=rw", Ok(b"set wrcreat")),
    (b"set open=readonly", Ok(b"set reader")),
    (b"set open=newdb", Ok(b"set newdb")),
    (b"set format=standard", Ok(b"set standard")),
    (b"set format=numsync", Ok(b"set numsync")),
];

const REFUSALS: [Row<'static>; 44] = [
    (b"x", Err(LangError::UnknownCommand)),
    (b"opens", Err(LangError::UnknownCommand)),
    (b"Open", Err(LangError::UnknownCommand)),
    (b"{", Err(LangError::UnknownCommand)),
    (b", open", Err(LangError::UnknownCommand)),
    (b"s", Err(LangError::Ambiguous)),
    (b"sto", Err(LangError::Arguments)),
    (b"st k v", Err(LangError::Ambiguous)),
    (b"\"\" x", Err(LangError::Ambiguous)),
    (b"de k", Err(LangError::Ambiguous)),
    (b"open \"", Err(LangError::Quote)),
    (b"x \"\\q", Err(LangError::Escape)),
    (b"atomic", Err(LangError::Unbuilt)),
    (b"avail", Err(LangError::Unbuilt)),
    (b"bucket 1", Err(LangError::Unbuilt)),
    (b"define key int", Err(LangError::Unbuilt)),
    (b"dir {", Err(LangError::Unbuilt)),
    (b"dow", Err(LangError::Unbuilt)),
    (b"export", Err(LangError::Unbuilt)),
    (b"hash k", Err(LangError::Unbuilt)),
    (b"header", Err(LangError::Unbuilt)),
    (b"import", Err(LangError::Unbuilt)),
    (b"recover", Err(LangError::Unbuilt)),
    (b"reorganize", Err(LangError::Unbuilt)),
    (b"snapshot", Err(LangError::Unbuilt)),
    (b"status", Err(LangError::Unbuilt)),
    (b"sync", Err(LangError::Unbuilt)),
    (b"upgrade", Err(LangError::Unbuilt)),
    (b"close x", Err(LangError::Arguments)),
    (b"quit ,", Err(LangError::Arguments)),
    (b"open a b", Err(LangError::Arguments)),
    (b"open {a}", Err(LangError::Arguments)),
    (b"open \"\"", Err(LangError::Arguments)),
    (b"open \"\\377\"", Err(LangError::Arguments)),
    (b"open \"\\000\"", Err(LangError::Arguments)),
    (b"open a.mode", Err(LangError::Arguments)),
    (b"fetch", Err(LangError::Arguments)),
    (b"fetch {}", Err(LangError::Arguments)),
    (b"fetch {a,}", Err(LangError::Arguments)),
    (b"fetch {a b}", Err(LangError::Arguments)),
    (b"fetch {a", Err(LangError::Arguments)),
    (b"fetch a b", Err(LangError::Arguments)),
    (b"store k", Err(LangError::Arguments)),
    (b"store k v w", Err(LangError::Arguments)),
];

fn judge(alloc: Global, row: Row<'_>) -> Result<bool, Fail> {
    let (line, expected) = row;
    match command_of(alloc, line)? {
        Ok(command) => match expected {
            Ok(text) => Ok(shown(alloc, &command)?.as_slice() == text),
            Err(_) => Ok(false),
        },
        Err(error) => match expected {
            Ok(_) => Ok(false),
            Err(refusal) => Ok(error == refusal),
        },
    }
}

#[test]
fn each_command_is_that_of_its_line(rt: HostRuntime) -> Result<(), Fail> {
    let alloc = rt.alloc();
    for row in COMMANDS {
        assert!(rt; judge(alloc, row)?);
    }
    Ok(())
}

#[test]
fn each_refusal_is_the_first_one(rt: HostRuntime) -> Result<(), Fail> {
    let alloc = rt.alloc();
    for row in REFUSALS {
        assert!(rt; judge(alloc, row)?);
    }
    Ok(())
}

/// How many bytes the text of a line's command has, or none where its arguments are wrong.
fn shown_length(alloc: Global, line: &[u8]) -> Result<Option<usize>, Fail> {
    match command_of(alloc, line)? {
        Ok(command) => {
            let text = shown(alloc, &command)?;
            Ok(Some(text.len()))
        }
        Err(LangError::Arguments) => Ok(None),
        Err(_) => Err(Fail::from("another refusal")),
    }
}

#[test]
fn names_have_at_most_4000_bytes(rt: HostRuntime) -> Result<(), Fail> {
    let alloc = rt.alloc();
    let mut line = Vec::new(alloc);
    line.extend_from_slice(b"open ")?;
    line.resize(4005, b'a')?;
    assert_eq!(rt; shown_length(alloc, line.as_slice())?, Some(4005));
    line.push(b'a')?;
    assert_eq!(rt; shown_length(alloc, line.as_slice())?, None);
    Ok(())
}
