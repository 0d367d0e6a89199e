use super::{defined, encoded};
use crate::{Member, TypeError};
use std::alloc::Global;
use std::process::Abort;
use std::test::Fail;

/// A row, a word, and the bytes or the refusal.
type NumberRow<'a> = (u32, &'a str, Result<&'a [u8], TypeError>);

const ENDS: [NumberRow<'static>; 32] = [
    (1, "-32768", Ok(&[0, 0x80])),
    (1, "32767", Ok(&[0xff, 0x7f])),
    (1, "32768", Err(TypeError::Range)),
    (1, "-32769", Err(TypeError::Range)),
    (2, "0", Ok(&[0, 0])),
    (2, "65535", Ok(&[0xff, 0xff])),
    (2, "65536", Err(TypeError::Range)),
    (2, "-1", Err(TypeError::Text)),
    (3, "-2147483648", Ok(&[0, 0, 0, 0x80])),
    (3, "2147483647", Ok(&[0xff, 0xff, 0xff, 0x7f])),
    (3, "-2147483649", Err(TypeError::Range)),
    (3, "2147483648", Err(TypeError::Range)),
    (4, "0", Ok(&[0, 0, 0, 0])),
    (4, "4294967295", Ok(&[0xff; 4])),
    (4, "4294967296", Err(TypeError::Range)),
    (4, "-1", Err(TypeError::Text)),
    (5, "-9223372036854775808", Ok(&[0, 0, 0, 0, 0, 0, 0, 0x80])),
    (
        5,
        "9223372036854775807",
        Ok(&[0xff, 0xff, 0xff, 0xff, 0xff, 0xff, 0xff, 0x7f]),
    ),
    (5, "9223372036854775808", Err(TypeError::Range)),
    (5, "-9223372036854775809", Err(TypeError::Range)),
    (6, "0", Ok(&[0; 8])),
    (6, "18446744073709551615", Ok(&[0xff; 8])),
    (6, "18446744073709551616", Err(TypeError::Range)),
    (6, "-1", Err(TypeError::Text)),
    (7, "-9223372036854775808", Ok(&[0, 0, 0, 0, 0, 0, 0, 0x80])),
    (
        7,
        "9223372036854775807",
        Ok(&[0xff, 0xff, 0xff, 0xff, 0xff, 0xff, 0xff, 0x7f]),
    ),
    (7, "-9223372036854775809", Err(TypeError::Range)),
    (7, "9223372036854775808", Err(TypeError::Range)),
    (8, "0", Ok(&[0; 8])),
    (8, "18446744073709551615", Ok(&[0xff; 8])),
    (8, "18446744073709551616", Err(TypeError::Range)),
    (8, "-1", Err(TypeError::Text)),
];

const TEXTS: [NumberRow<'static>; 22] = [
    (0, "", Err(TypeError::Text)),
    (0, "7", Ok(b"7")),
    (0, "77", Err(TypeError::Text)),
    (2, "0007", Ok(&[7, 0])),
    (2, "0x0007", Ok(&[7, 0])),
    (2, "0xaBcD", Ok(&[0xcd, 0xab])),
    (2, "0x10000", Err(TypeError::Range)),
    (2, "0XabcD", Err(TypeError::Text)),
    (2, "0x", Err(TypeError::Text)),
    (2, "0xg", Err(TypeError::Text)),
    (2, "", Err(TypeError::Text)),
    (2, "12a", Err(TypeError::Text)),
    (2, " 1", Err(TypeError::Text)),
    (2, "+1", Err(TypeError::Text)),
    (2, "-0", Err(TypeError::Text)),
    (1, "-0", Ok(&[0, 0])),
    (1, "-", Err(TypeError::Text)),
    (1, "--1", Err(TypeError::Text)),
    (1, "-0x1", Err(TypeError::Text)),
    (1, "0xffff", Err(TypeError::Range)),
    (
        8,
        "99999999999999999999999999999999999999999999",
        Err(TypeError::Range),
    ),
    (
        7,
        "-99999999999999999999999999999999999999999999",
        Err(TypeError::Range),
    ),
];

fn agrees(alloc: Global, row: NumberRow<'_>, rt: &impl Abort) -> Result<(), Fail> {
    let (row, word, expected) = row;
    let definition = defined(alloc, false, &[Member::Row(row)])?;
    match encoded(alloc, &definition, &[word])? {
        Ok(datum) => match expected {
            Ok(bytes) => assert_eq!(rt; datum.as_slice(), bytes, "{word}"),
            Err(error) => assert!(rt; false, "{word} {error:?}"),
        },
        Err(error) => match expected {
            Ok(_) => assert!(rt; false, "{word} {error:?}"),
            Err(refusal) => assert_eq!(rt; error, refusal, "{word}"),
        },
    }
    Ok(())
}

#[test]
fn each_row_holds_its_range(rt: HostRuntime) -> Result<(), Fail> {
    for row in ENDS {
        agrees(rt.alloc(), row, &rt)?;
    }
    Ok(())
}

#[test]
fn numbers_are_decimal_or_hexadecimal(rt: HostRuntime) -> Result<(), Fail> {
    for row in TEXTS {
        agrees(rt.alloc(), row, &rt)?;
    }
    Ok(())
}
