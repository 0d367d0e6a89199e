use super::{defined, encoded};
use crate::{DecodeError, Definition, Member, TypeError, check, decode};
use gd_base::{CallList, MemSink, Sink};
use std::alloc::Global;
use std::test::Fail;

/// Members in braces, a datum, and its text or its refusal.
type DecodeRow<'a> = (&'a [Member], &'a [u8], Result<&'a str, TypeError>);

const ROWS: [DecodeRow<'static>; 14] = [
    (&[Member::Row(1)], &[1, 0, 0], Err(TypeError::Trailing)),
    (&[Member::Row(1)], &[1], Err(TypeError::Short)),
    (&[Member::Row(1)], &[0xfe, 0xff], Ok("-2")),
    (&[Member::Row(2)], &[0xfe, 0xff], Ok("65534")),
    (
        &[Member::Row(3), Member::Row(10)],
        &[7, 0, 0, 0, 0x61, 0x62, 0],
        Ok("7,ab"),
    ),
    (
        &[Member::Row(3), Member::Row(10)],
        &[7, 0, 0, 0, 0x61, 0x62],
        Err(TypeError::Short),
    ),
    (
        &[Member::Row(3), Member::Row(10)],
        &[7, 0, 0, 0, 0x61, 0, 0x62, 0],
        Err(TypeError::Trailing),
    ),
    (
        &[
            Member::Row(0),
            Member::Pad(2),
            Member::Row(0),
            Member::Pad(1),
        ],
        b"axxbx",
        Ok("a,b"),
    ),
    (
        &[Member::Row(0), Member::Pad(1)],
        b"a",
        Err(TypeError::Short),
    ),
    (&[Member::Off(3), Member::Row(0)], b"xxxa", Ok("a")),
    (&[Member::Off(3)], b"xx", Err(TypeError::Short)),
    (&[Member::Row(0), Member::Row(9)], b"a", Ok("a,")),
    (&[Member::Row(9)], b"a\"\\\x7f", Ok("a\\\"\\\\\\177")),
    (&[], b"a", Err(TypeError::Trailing)),
];

fn agrees(
    alloc: Global,
    definition: &Definition,
    bytes: &[u8],
    delim: &[u8],
    expected: Result<&str, TypeError>,
) -> Result<bool, Fail> {
    if definition.has_float() {
        return Ok(false);
    }
    let mut out = MemSink::new(alloc, CallList::from_slice(alloc, &[])?);
    let refusal = check(definition, bytes);
    match decode(definition, bytes, delim, &mut out) {
        Ok(()) => match expected {
            Ok(text) => Ok(refusal.is_none() && out.bytes() == text.as_bytes()),
            Err(_) => Ok(false),
        },
        Err(DecodeError::Typed(error)) => match expected {
            Ok(_) => Ok(false),
            Err(other) => Ok(error == other && refusal == Some(error) && out.bytes().is_empty()),
        },
        Err(DecodeError::Failed) => Ok(false),
    }
}

#[test]
fn a_datum_is_printed_or_refused(rt: HostRuntime) -> Result<(), Fail> {
    let alloc = rt.alloc();
    for (members, bytes, expected) in ROWS {
        let definition = defined(alloc, true, members)?;
        assert!(rt;
            agrees(alloc, &definition, bytes, b",", expected)?,
            "{bytes:?}"
        );
    }
    let definition = defined(alloc, true, &[Member::Row(3), Member::Row(10)])?;
    let datum = [7, 0, 0, 0, 0x61, 0x62, 0];
    assert!(rt; agrees(alloc, &definition, &datum, b";", Ok("7;ab"))?);
    assert!(rt; agrees(alloc, &definition, &datum, b"", Ok("7ab"))?);
    Ok(())
}

#[test]
fn a_sink_that_fails_is_told_from_a_refusal(rt: HostRuntime) -> Result<(), Fail> {
    let alloc = rt.alloc();
    let definition = defined(alloc, false, &[Member::Row(9)])?;
    if definition.has_float() {
        return Err(Fail::from("a float"));
    }
    let mut out = MemSink::new(alloc, CallList::from_slice(alloc, &[0])?);
    assert_eq!(rt;
        decode(&definition, b"ab", b",", &mut out),
        Err(DecodeError::Failed)
    );
    assert_eq!(rt; out.faults(), 1);
    Ok(())
}

#[test]
fn the_ends_of_each_row_are_printed_again(rt: HostRuntime) -> Result<(), Fail> {
    let alloc = rt.alloc();
    let rows = [
        (1, "-32768"),
        (1, "32767"),
        (2, "65535"),
        (3, "-2147483648"),
        (3, "2147483647"),
        (4, "4294967295"),
        (5, "-9223372036854775808"),
        (6, "18446744073709551615"),
        (7, "9223372036854775807"),
        (8, "0"),
    ];
    for (row, word) in rows {
        let definition = defined(alloc, false, &[Member::Row(row)])?;
        match encoded(alloc, &definition, &[word])? {
            Ok(datum) => {
                assert!(rt;
                    agrees(alloc, &definition, datum.as_slice(), b",", Ok(word))?,
                    "{word}"
                )
            }
            Err(error) => assert!(rt; false, "{word} {error:?}"),
        }
    }
    Ok(())
}
