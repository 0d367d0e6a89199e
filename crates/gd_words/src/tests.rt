use crate::{Form, Refusal, dump_words, load_words, tool_words};
use gd_base::{Format, Name};
use gd_lang::Opening;
use std::alloc::Global;
use std::rt::HostRuntime;
use std::test::Fail;

fn words_of(alloc: Global, words: &[&str]) -> Result<Vec<String>, Fail> {
    let mut all = Vec::new(alloc);
    for word in words {
        all.push(String::from_str(alloc, word)?)?;
    }
    Ok(all)
}

fn text_of(name: &Option<Name>) -> &str {
    match name {
        Some(name) => name.as_str(),
        None => "",
    }
}

/// What `gdbm_dump` is asked for: is the dump binary, the database, and the file or nothing.
fn dumps(alloc: Global, words: &[&str], binary: bool, db: &str, file: &str) -> Result<bool, Fail> {
    match dump_words(alloc, words_of(alloc, words)?.as_slice()) {
        Ok(found) => Ok(
            (found.form == Form::Binary) == binary
                && found.db.as_str() == db
                && text_of(&found.file) == file,
        ),
        Err(_) => Ok(false),
    }
}

#[test]
fn dump_words_are_read(rt: HostRuntime) -> Result<(), Fail> {
    let alloc = rt.alloc();
    assert!(rt; dumps(alloc, &["a.gdbm"], false, "a.gdbm", "")?);
    assert!(rt; dumps(alloc, &["a.gdbm", "b"], false, "a.gdbm", "b")?);
    assert!(rt; dumps(alloc, &["-H", "binary", "a.gdbm"], true, "a.gdbm", "")?);
    assert!(rt; dumps(alloc, &["-Hbinary", "a.gdbm"], true, "a.gdbm", "")?);
    assert!(rt; dumps(alloc, &["--format=0", "a.gdbm"], true, "a.gdbm", "")?);
    assert!(rt;
        dumps(
            alloc,
            &["a.gdbm", "--format", "1", "b"],
            false,
            "a.gdbm",
            "b"
        )?
    );
    assert!(rt; dumps(alloc, &["-H=ascii", "--", "-a"], false, "-a", "")?);
    Ok(())
}

fn dump_refused(alloc: Global, words: &[&str]) -> Result<bool, Fail> {
    match dump_words(alloc, words_of(alloc, words)?.as_slice()) {
        Err(Refusal::Usage) => Ok(true),
        _ => Ok(false),
    }
}

fn refused_dumps<'a>() -> [&'a [&'a str]; 14] {
    [
        &[],
        &["a", "b", "c"],
        &["-x", "a"],
        &["-h"],
        &["--help"],
        &["-V"],
        &["--version"],
        &["-H", "a.gdbm"],
        &["-H", "ascii", "-H", "ascii", "a.gdbm"],
        &["-H", "2", "a.gdbm"],
        &["a.mode"],
        &["a", ""],
        &["--form", "0", "a"],
        &["help"],
    ]
}

#[test]
fn faulty_dump_words_are_refused(rt: HostRuntime) -> Result<(), Fail> {
    let alloc = rt.alloc();
    let rows = refused_dumps();
    for (row, words) in rows.iter().enumerate() {
        assert!(rt; dump_refused(alloc, words)? == (row < 13));
    }
    Ok(())
}

/// What `gdbmtool` is asked for.
fn asks(
    alloc: Global,
    words: &[&str],
    block: u32,
    cache: u32,
    opening: Opening,
    format: Format,
    db: &str,
) -> Result<bool, Fail> {
    match tool_words(alloc, words_of(alloc, words)?.as_slice()) {
        Ok(found) => Ok(
            found.block == block
                && found.cache == cache
                && found.opening == opening
                && found.format == format
                && found.db.as_str() == db,
        ),
        Err(_) => Ok(false),
    }
}

#[test]
fn tool_words_are_read(rt: HostRuntime) -> Result<(), Fail> {
    let alloc = rt.alloc();
    let standard = Format::Standard;
    assert!(rt; asks(alloc, &[], 0, 100, Opening::WrCreat, standard, "junk.gdbm")?);
    assert!(rt;
        asks(
            alloc,
            &["-n", "t.gdbm"],
            0,
            100,
            Opening::NewDb,
            standard,
            "t.gdbm"
        )?
    );
    assert!(rt;
        asks(
            alloc,
            &["-rNq", "t"],
            0,
            100,
            Opening::Reader,
            standard,
            "t"
        )?
    );
    assert!(rt;
        asks(
            alloc,
            &["-b0512", "-c", "1", "-x"],
            512,
            1,
            Opening::WrCreat,
            Format::Numsync,
            "junk.gdbm"
        )?
    );
    assert!(rt;
        asks(
            alloc,
            &[
                "--block-size=1048576",
                "--cache-size",
                "4096",
                "--newdb",
                "--extended"
            ],
            1_048_576,
            4096,
            Opening::NewDb,
            Format::Numsync,
            "junk.gdbm"
        )?
    );
    assert!(rt;
        asks(
            alloc,
            &["--read-only", "--norc", "--quiet", "-b", "0000000000"],
            0,
            100,
            Opening::Reader,
            standard,
            "junk.gdbm"
        )?
    );
    Ok(())
}

fn tool_refused(alloc: Global, words: &[&str]) -> Result<bool, Fail> {
    match tool_words(alloc, words_of(alloc, words)?.as_slice()) {
        Err(Refusal::Usage) => Ok(true),
        _ => Ok(false),
    }
}

fn refused_tools<'a>() -> [&'a [&'a str]; 14] {
    [
        &["-r", "-n"],
        &["-n", "-n"],
        &["a", "b"],
        &["-b", "1048577"],
        &["-b", "-1"],
        &["-b", "+1"],
        &["-b", "00000000512"],
        &["-b", ""],
        &["-b"],
        &["-c", "0"],
        &["-c", "4097"],
        &["-f", "x"],
        &["a.gdbm-scratch"],
        &[""],
    ]
}

#[test]
fn faulty_tool_words_are_refused(rt: HostRuntime) -> Result<(), Fail> {
    let alloc = rt.alloc();
    let rows = refused_tools();
    for words in rows.iter() {
        assert!(rt; tool_refused(alloc, words)?);
    }
    Ok(())
}

/// What `gdbm_load` is asked for.
fn loads(
    alloc: Global,
    words: &[&str],
    replace: bool,
    update: bool,
    input: &str,
    db: &str,
) -> Result<bool, Fail> {
    match load_words(alloc, words_of(alloc, words)?.as_slice()) {
        Ok(found) => Ok(
            found.block == 0
                && found.cache == 100
                && found.replace == replace
                && found.update == update
                && text_of(&found.input) == input
                && text_of(&found.db) == db,
        ),
        Err(_) => Ok(false),
    }
}

#[test]
fn load_words_are_read(rt: HostRuntime) -> Result<(), Fail> {
    let alloc = rt.alloc();
    assert!(rt; loads(alloc, &["-"], false, false, "", "")?);
    assert!(rt;
        loads(
            alloc,
            &["-rU", "a.txt", "a.gdbm"],
            true,
            true,
            "a.txt",
            "a.gdbm"
        )?
    );
    assert!(rt; loads(alloc, &["--replace", "-n", "-", "b"], true, false, "", "b")?);
    assert!(rt; loads(alloc, &["a", "--update", "--no-meta"], false, true, "a", "")?);
    Ok(())
}

#[test]
fn faulty_load_words_are_refused(rt: HostRuntime) -> Result<(), Fail> {
    let alloc = rt.alloc();
    let rows: [&[&str]; 5] = [
        &[],
        &["a", "b", "c"],
        &["-m", "-"],
        &["-", "-b", "9999999999"],
        &["a.mode"],
    ];
    for words in rows.iter() {
        match load_words(alloc, words_of(alloc, words)?.as_slice()) {
            Err(Refusal::Usage) => {}
            _ => assert!(rt; false),
        }
    }
    Ok(())
}
