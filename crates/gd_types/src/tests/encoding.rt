use super::{defined, encoded};
use crate::{Member, TypeError};
use std::test::Fail;

/// Braces, members, words, and the bytes or the refusal.
type EncodeRow<'a> = (
    bool,
    &'a [Member],
    &'a [&'a str],
    Result<&'a [u8], TypeError>,
);

const ROWS: [EncodeRow<'static>; 12] = [
    (
        true,
        &[Member::Row(3), Member::Pad(2), Member::Row(0)],
        &["1", "a"],
        Ok(&[1, 0, 0, 0, 0, 0, 0x61]),
    ),
    (
        true,
        &[Member::Off(4), Member::Row(2)],
        &["65535"],
        Ok(&[0, 0, 0, 0, 0xff, 0xff]),
    ),
    (false, &[Member::Row(1)], &["-1"], Ok(&[0xff, 0xff])),
    (false, &[Member::Row(1)], &["-32769"], Err(TypeError::Range)),
    (false, &[Member::Row(2)], &["-1"], Err(TypeError::Text)),
    (
        false,
        &[Member::Row(6)],
        &["0xffffffffffffffff"],
        Ok(&[0xff; 8]),
    ),
    (
        true,
        &[Member::Row(1), Member::Row(1)],
        &["1"],
        Err(TypeError::Text),
    ),
    (
        true,
        &[Member::Row(3), Member::Row(10)],
        &["7", "ab"],
        Ok(&[7, 0, 0, 0, 0x61, 0x62, 0]),
    ),
    (
        true,
        &[Member::Row(3), Member::Row(10)],
        &["2147483648", "ab"],
        Err(TypeError::Range),
    ),
    (
        true,
        &[Member::Row(1), Member::Row(0)],
        &["70000", "ab"],
        Err(TypeError::Range),
    ),
    (
        true,
        &[Member::Row(0), Member::Row(1)],
        &["ab", "70000"],
        Err(TypeError::Text),
    ),
    (
        true,
        &[Member::Row(1)],
        &["70000", "1"],
        Err(TypeError::Text),
    ),
];

#[test]
fn words_become_bytes_or_the_first_refusal(rt: HostRuntime) -> Result<(), Fail> {
    let alloc = rt.alloc();
    for (braces, members, words, expected) in ROWS {
        let definition = defined(alloc, braces, members)?;
        match encoded(alloc, &definition, words)? {
            Ok(datum) => match expected {
                Ok(bytes) => assert_eq!(rt; datum.as_slice(), bytes),
                Err(error) => assert!(rt; false, "{error:?}"),
            },
            Err(error) => match expected {
                Ok(_) => assert!(rt; false, "{error:?}"),
                Err(refusal) => assert_eq!(rt; error, refusal),
            },
        }
    }
    Ok(())
}

#[test]
fn a_text_takes_its_word(rt: HostRuntime) -> Result<(), Fail> {
    let alloc = rt.alloc();
    let text = defined(alloc, false, &[Member::Row(9)])?;
    let ended = defined(alloc, false, &[Member::Row(10)])?;
    for word in ["", "a", "a b\n", "a\0b"] {
        match encoded(alloc, &text, &[word])? {
            Ok(datum) => assert_eq!(rt; datum.as_slice(), word.as_bytes()),
            Err(error) => assert!(rt; false, "{error:?}"),
        }
    }
    match encoded(alloc, &ended, &["a\0b"])? {
        Ok(_) => assert!(rt; false, "a NUL in a text that ends in one"),
        Err(error) => assert_eq!(rt; error, TypeError::Text),
    }
    match encoded(alloc, &ended, &[""])? {
        Ok(datum) => assert_eq!(rt; datum.as_slice(), [0u8].as_slice()),
        Err(error) => assert!(rt; false, "{error:?}"),
    }
    Ok(())
}
