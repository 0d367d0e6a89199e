use super::command_of;
use crate::{Command, LangError, Setting};
use std::test::Fail;

/// A line, and the number that it sets, or none where its arguments are wrong.
const NUMBERS: [(&[u8], Option<u32>); 16] = [
    (b"set blocksize=0", Some(0)),
    (b"set blocksize=512", Some(512)),
    (b"set blocksize=1048576", Some(1_048_576)),
    (b"set blocksize=1048577", None),
    (b"set blocksize=4294967296", None),
    (b"set blocksize=18446744073709551616", None),
    (b"set blocksize=00", None),
    (b"set blocksize=+1", None),
    (b"set blocksize=", None),
    (b"set blocksize", None),
    (b"set cachesize=0", None),
    (b"set cachesize=1", Some(1)),
    (b"set cachesize=4096", Some(4_096)),
    (b"set cachesize=4097", None),
    (b"set cache=1", None),
    (b"set cachesize=1 2", None),
];

#[test]
fn numbers_are_set_within_their_bounds(rt: HostRuntime) -> Result<(), Fail> {
    let alloc = rt.alloc();
    for (line, expected) in NUMBERS {
        let number = match command_of(alloc, line)? {
            Ok(Command::Set(Some(Setting::BlockSize(bytes)))) => Some(bytes),
            Ok(Command::Set(Some(Setting::CacheSize(buckets)))) => Some(buckets),
            Err(LangError::Arguments) => None,
            _ => return Err(Fail::from("neither a number nor wrong arguments")),
        };
        assert_eq!(rt; number, expected);
    }
    Ok(())
}

/// Lines whose arguments are wrong.
const WRONG: [&[u8]; 11] = [
    b"set delim1=12345678901234567",
    b"set delim2=,",
    b"set format=other",
    b"set open=w",
    b"set open=",
    b"set =x",
    b"set \"\"",
    b"fill 1",
    b"fill 18446744073709551616 1",
    b"fill 1 1000001",
    b"fill 01 1",
];

#[test]
fn other_values_are_wrong(rt: HostRuntime) -> Result<(), Fail> {
    let alloc = rt.alloc();
    for line in WRONG {
        match command_of(alloc, line)? {
            Ok(_) => assert!(rt; false, "a wrong value was taken"),
            Err(error) => assert_eq!(rt; error, LangError::Arguments),
        }
    }
    Ok(())
}
