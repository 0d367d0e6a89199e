use crate::{
    CallList, Clock, Datum, DbError, Failed, MemClock, MemSink, MemSource, Name, NameError, Page,
    Sink, Source, Which, flush, put,
};
use std::alloc::Global;
use std::test::Fail;

fn sink(alloc: Global, fails: &[u64]) -> Result<MemSink, Fail> {
    Ok(MemSink::new(alloc, CallList::from_slice(alloc, fails)?))
}

fn named(alloc: Global, text: &str) -> Result<Name, Fail> {
    Ok(Name::new(alloc, text)?)
}

#[test]
fn names_are_refused_in_their_order(rt: HostRuntime) -> Result<(), Fail> {
    let alloc = rt.alloc();
    let mut long = String::new(alloc);
    for _ in 0..400 {
        long.push_str("0123456789")?;
    }
    assert!(rt; Name::new(alloc, long.as_str()).is_ok(), "4,000 bytes");
    long.push_str("\0.mode")?;
    let refused = [
        ("", NameError::Empty),
        (long.as_str(), NameError::TooLong),
        ("a\0.mode", NameError::Nul),
        ("a.mode", NameError::Reserved),
        (".gdbm-scratch", NameError::Reserved),
    ];
    for (text, error) in refused {
        match Name::new(alloc, text) {
            Ok(_) => assert!(rt; false, "{error:?}"),
            Err(refusal) => assert_eq!(rt; refusal, error),
        }
    }
    let name = named(alloc, "mail/aliases.gdbm")?;
    assert_eq!(rt; name.as_str(), "mail/aliases.gdbm");
    assert_eq!(rt;
        name.scratch(alloc)?.as_str(),
        "mail/aliases.gdbm.gdbm-scratch"
    );
    let mut other = named(alloc, "b")?;
    other.set(&name);
    assert_eq!(rt; other.as_str(), name.copy(alloc)?.as_str());
    Ok(())
}

#[test]
fn errors_have_their_numbers_and_names(rt: HostRuntime) {
    let errors = [
        (DbError::Absent, "Absent"),
        (DbError::BlockSize, "BlockSize"),
        (DbError::ShortFile, "ShortFile"),
        (DbError::BadMagic, "BadMagic"),
        (DbError::ByteSwapped, "ByteSwapped"),
        (DbError::WrongOffset, "WrongOffset"),
        (DbError::BadHeader, "BadHeader"),
        (DbError::BadDirEntry(5), "BadDirEntry"),
        (DbError::BadBucket(1024), "BadBucket"),
        (DbError::BadHashTable(1024), "BadHashTable"),
        (DbError::BadHashEntry(1024, 7), "BadHashEntry"),
        (DbError::BadAvail(40), "BadAvail"),
        (DbError::NeedRecovery, "NeedRecovery"),
        (DbError::ReaderCant, "ReaderCant"),
        (DbError::ItemNotFound, "ItemNotFound"),
        (DbError::CannotReplace, "CannotReplace"),
        (DbError::DirOverflow, "DirOverflow"),
        (DbError::TooLarge, "TooLarge"),
        (DbError::FileFull, "FileFull"),
        (DbError::Exists(Which::Odd), "Exists"),
        (DbError::InUse, "InUse"),
        (DbError::NotNumsync, "NotNumsync"),
        (DbError::AlreadyAtomic, "AlreadyAtomic"),
        (DbError::SameName, "SameName"),
        (DbError::InEpoch, "InEpoch"),
        (DbError::NotOpen, "NotOpen"),
        (DbError::VaultFault, "VaultFault"),
        (DbError::ClockFault, "ClockFault"),
        (DbError::OutOfMemory, "OutOfMemory"),
        (DbError::ClockStood(2, 1), "ClockStood"),
    ];
    for (place, (error, name)) in errors.iter().enumerate() {
        assert_eq!(rt; usize::from(error.number()), place + 1);
        assert_eq!(rt; error.name(), *name);
    }
}

#[test]
fn a_sink_fails_at_the_calls_of_its_list(rt: HostRuntime) -> Result<(), Fail> {
    let mut out = sink(rt.alloc(), &[1])?;
    assert_eq!(rt; out.write(b"one"), Ok(3));
    assert_eq!(rt; out.write(b"two"), Err(Failed));
    assert_eq!(rt; out.write(b"three"), Ok(5));
    assert_eq!(rt; out.bytes(), b"onethree".as_slice());
    assert_eq!(rt; out.faults(), 1);
    assert_eq!(rt; out.starved(), 0);
    Ok(())
}

#[test]
fn a_page_hands_on_all_that_is_put(rt: HostRuntime) -> Result<(), Fail> {
    let alloc = rt.alloc();
    let mut all = Vec::new(alloc);
    let mut out = sink(alloc, &[])?;
    let mut page = Page::new();
    for size in [1usize, 77, 4000, 4096, 18, 5000, 4096, 0, 2] {
        let bytes = vec![in alloc; 7u8; size]?;
        put(&mut page, &mut out, &bytes).map_err(|_| "a put")?;
        all.extend_from_slice(&bytes)?;
    }
    flush(&mut page, &mut out).map_err(|_| "a flush")?;
    assert_eq!(rt; out.bytes(), all.as_slice());
    let mut page = Page::new();
    let mut full = sink(alloc, &[0])?;
    put(&mut page, &mut full, b"waits").map_err(|_| "a put")?;
    assert_eq!(rt; flush(&mut page, &mut full), Err(Failed));
    assert_eq!(rt; full.faults(), 1);
    Ok(())
}

#[test]
fn a_source_gives_its_bytes_but_at_the_calls_of_its_list(rt: HostRuntime) -> Result<(), Fail> {
    let alloc = rt.alloc();
    let mut input = MemSource::new(
        Datum::from_slice(alloc, b"alphabet")?,
        CallList::from_slice(alloc, &[1])?,
    );
    let mut buf = [0u8; 5];
    assert_eq!(rt; input.read(&mut buf), Ok(5));
    assert_eq!(rt; &buf[..], b"alpha".as_slice());
    assert_eq!(rt; input.read(&mut buf), Err(Failed));
    assert_eq!(rt; input.read(&mut buf), Ok(3));
    assert_eq!(rt; &buf[..3], b"bet".as_slice());
    assert_eq!(rt; input.read(&mut buf), Ok(0));
    assert_eq!(rt; input.faults(), 1);
    Ok(())
}

#[test]
fn a_clock_gives_its_last_number_for_good(rt: HostRuntime) -> Result<(), Fail> {
    let alloc = rt.alloc();
    let numbers = CallList::from_slice(alloc, &[7, 5])?;
    let mut clock = MemClock::new(numbers, CallList::from_slice(alloc, &[1])?);
    for reading in [Ok(7), Err(Failed), Ok(5), Ok(5)] {
        assert_eq!(rt; clock.now(), reading);
    }
    assert_eq!(rt; clock.faults(), 1);
    let none = CallList::from_slice(alloc, &[])?;
    let mut empty = MemClock::new(none, CallList::from_slice(alloc, &[])?);
    assert_eq!(rt; empty.now(), Ok(0));
    Ok(())
}
