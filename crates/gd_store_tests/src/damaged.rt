use crate::trial::Trial;
use gd_base::{DbError, Format};
use gd_store::Access;
use std::alloc::Global;
use std::process::Abort;
use std::test::Fail;

// A new file of block 512, with a record if one is wanted.
fn small_file(alloc: Global, with_record: bool) -> Option<Vec<u8>> {
    let mut trial = Trial::new(alloc, 512, Format::Standard)?;
    if with_record && trial.insert(b"k", b"v") != Ok(()) {
        return None;
    }
    trial.bytes().to_vec(alloc).ok()
}

// Puts bytes over those of a file, where it has a place for them.
fn change_bytes(file: &mut [u8], at: usize, bytes: &[u8]) {
    if at <= file.len() && bytes.len() <= file.len() - at {
        file[at..at + bytes.len()].copy_from_slice(bytes);
    }
}

// What opening a file is answered, of which some bytes are changed.
fn answer(alloc: Global, file: &[u8], at: usize, bytes: &[u8], access: Access) -> Option<DbError> {
    let Ok(mut changed) = file.to_vec(alloc) else {
        return Some(DbError::OutOfMemory);
    };
    change_bytes(&mut changed, at, bytes);
    match Trial::open(alloc, &changed, access) {
        Ok(_) => None,
        Err(e) => Some(e),
    }
}

// A change of a new file's bytes, and what it is answered for both accesses.
#[derive(Clone, Copy)]
struct Change<'a> {
    at: usize,
    bytes: &'a [u8],
    reader: Option<DbError>,
    writer: Option<DbError>,
}

// A change that both accesses are refused.
fn refused(at: usize, bytes: &[u8], e: DbError) -> Change<'_> {
    Change {
        at,
        bytes,
        reader: Some(e),
        writer: Some(e),
    }
}

#[test]
fn headers_are_refused(rt: HostRuntime) -> Result<(), Fail> {
    let Some(file) = small_file(rt.alloc(), false) else {
        return Err("refused".into());
    };
    let changes = [
        refused(0, &[0x13, 0x57, 0x9a, 0xcf], DbError::ByteSwapped),
        refused(0, &[0xcd, 0x9a, 0x57, 0x13], DbError::WrongOffset),
        refused(0, &[0; 4], DbError::BadMagic),
        refused(4, &[0, 3], DbError::BlockSize),
        Change {
            at: 0,
            bytes: &[0xce, 0x9a, 0x57, 0x13],
            reader: None,
            writer: None,
        },
        Change {
            at: 32,
            bytes: &[0, 4],
            reader: None,
            writer: Some(DbError::NeedRecovery),
        },
    ];
    for change in &changes {
        let reader = answer(rt.alloc(), &file, change.at, change.bytes, Access::Reader);
        assert!(rt; reader == change.reader);
        let writer = answer(rt.alloc(), &file, change.at, change.bytes, Access::Writer);
        assert!(rt; writer == change.writer);
    }
    Ok(())
}

#[test]
fn a_short_file_is_refused(rt: HostRuntime) -> Result<(), Fail> {
    let Some(file) = small_file(rt.alloc(), false) else {
        return Err("refused".into());
    };
    let Some(start) = file.get(..39) else {
        return Err("too short".into());
    };
    assert!(rt;
        matches!(
            Trial::open(rt.alloc(), start, Access::Reader),
            Err(DbError::ShortFile)
        )
    );
    assert!(rt;
        matches!(
            Trial::open(rt.alloc(), start, Access::Writer),
            Err(DbError::ShortFile)
        )
    );
    Ok(())
}

// The file with a second free extent of two bytes in its table, where its first record is.
fn with_free_record(file: &mut [u8]) {
    let at = match file.get(1312..1314) {
        Some([low, high]) => [*low, *high],
        _ => [0; 2],
    };
    change_bytes(file, 1024, &[2]);
    change_bytes(file, 1048, &[2]);
    change_bytes(file, 1056, &at);
}

#[test]
fn a_free_extent_over_a_record_is_refused_to_a_writer(rt: HostRuntime) -> Result<(), Fail> {
    let Some(mut file) = small_file(rt.alloc(), true) else {
        return Err("refused".into());
    };
    with_free_record(&mut file);
    let Ok(mut reader) = Trial::open(rt.alloc(), &file, Access::Reader) else {
        return Err("refused".into());
    };
    assert!(rt; reader.has(b"k", b"v"));
    assert!(rt; reader.insert(b"k", b"w") == Err(DbError::ReaderCant));
    assert!(rt; reader.delete(b"k") == Err(DbError::ReaderCant));
    assert!(rt;
        matches!(
            Trial::open(rt.alloc(), &file, Access::Writer),
            Err(DbError::BadAvail(1024))
        )
    );
    Ok(())
}

#[test]
fn a_file_at_its_greatest_end_takes_no_pair(rt: HostRuntime) -> Result<(), Fail> {
    let Some(mut file) = small_file(rt.alloc(), false) else {
        return Err("refused".into());
    };
    change_bytes(&mut file, 32, &[0, 0, 0, 0, 0, 0x40, 0, 0]);
    let Ok(mut trial) = Trial::open(rt.alloc(), &file, Access::Writer) else {
        return Err("refused".into());
    };
    assert!(rt; trial.insert(b"k", b"v") == Err(DbError::FileFull));
    assert!(rt; trial.bytes() == file.as_slice());
    Ok(())
}
