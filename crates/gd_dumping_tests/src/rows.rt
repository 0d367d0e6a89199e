//! The rows: files and what `gdbm_dump` answers.

use crate::layout::{
    EMPTY, HIGH, K, LONG, Layout, NO_VALUE, NUMSYNC, OTHER_HASH, Record, STANDARD, file_of, worked,
};
use std::alloc::{AllocError, Global};

/// What a file is answered: the lines of its format and of its records, or an error.
#[derive(Clone, Copy)]
pub enum Answer<'a> {
    Dump(&'a str, &'a str),
    Error(&'a str),
}

/// A row shows something: magic, size of blocks, allocated end, size of the free extent, records, length, and what is answered.
pub type FileRow = (
    &'static str,
    u32,
    u32,
    u64,
    u32,
    &'static [Record<'static>],
    usize,
    Answer<'static>,
);

/// The bytes of a row's file.
pub fn file_of_row(alloc: Global, row: &FileRow) -> Result<Vec<u8>, AllocError> {
    let (_, magic, block, next_block, free, records, len, _) = *row;
    let layout = Layout {
        magic,
        block,
        next_block,
        free: (free, 3 * u64::from(block)),
        records,
    };
    let mut file = file_of(alloc, &layout)?;
    file.truncate(len);
    Ok(file)
}

const ONE: &str = "#:len=1\naw==\n#:len=1\ndg==\n#:count=1\n";

const NONE: &str = "#:count=0\n";

const HIGH_LINES: &str = "#:len=1\ngA==\n#:len=1\ndg==\n#:count=1\n";

const EMPTY_LINES: &str = "#:len=0\n#:len=0\n#:count=1\n";

const LONG_LINES: &str =
    "#:len=1\naw==\n#:len=58\nYWFhYWFhYWFhYWFhYWFhYWFhYWFhYWFhYWFhYWFhYWFhYWFhYWFhYWFhYWFhYWFhYWFhYWFhYWFh\nYQ==\n#:count=1\n";

/// Files whose original magic, allocated end below the length and free space over the record do not matter to a reader, and
/// others that are refused.
pub fn file_rows() -> [FileRow; 16] {
    [
        (
            "the worked file",
            STANDARD,
            512,
            2048,
            510,
            &[K],
            1538,
            Answer::Dump("standard", ONE),
        ),
        (
            "the original magic",
            0x1357_9ace,
            512,
            2048,
            510,
            &[K],
            1538,
            Answer::Dump("standard", ONE),
        ),
        (
            "an allocated end below the length",
            STANDARD,
            512,
            1024,
            512,
            &[K],
            1538,
            Answer::Dump("standard", ONE),
        ),
        (
            "a numsync, whose fields end at 72",
            NUMSYNC,
            512,
            2048,
            512,
            &[K],
            1538,
            Answer::Dump("numsync", ONE),
        ),
        (
            "no record",
            STANDARD,
            512,
            2048,
            512,
            &[],
            1536,
            Answer::Dump("standard", NONE),
        ),
        (
            "a byte that is no text",
            STANDARD,
            512,
            2048,
            512,
            &[HIGH],
            1538,
            Answer::Dump("standard", HIGH_LINES),
        ),
        (
            "an empty key in a large block",
            STANDARD,
            4096,
            16384,
            4096,
            &[EMPTY],
            12288,
            Answer::Dump("standard", EMPTY_LINES),
        ),
        (
            "a value of 58 bytes",
            STANDARD,
            512,
            2048,
            512,
            &[LONG],
            1595,
            Answer::Dump("standard", LONG_LINES),
        ),
        (
            "the other order of bytes",
            0xcf9a_5713,
            512,
            2048,
            512,
            &[],
            1536,
            Answer::Error("5 ByteSwapped"),
        ),
        (
            "another size of offsets",
            0x1357_9acd,
            512,
            2048,
            512,
            &[],
            1536,
            Answer::Error("6 WrongOffset"),
        ),
        (
            "no magic",
            0,
            512,
            2048,
            512,
            &[],
            1536,
            Answer::Error("4 BadMagic"),
        ),
        (
            "a size of blocks",
            STANDARD,
            768,
            3072,
            768,
            &[],
            2304,
            Answer::Error("2 BlockSize"),
        ),
        (
            "an allocated end of 2^47",
            STANDARD,
            512,
            1 << 47,
            512,
            &[],
            1536,
            Answer::Error("7 BadHeader"),
        ),
        (
            "another hash",
            STANDARD,
            512,
            2048,
            512,
            &[OTHER_HASH],
            1538,
            Answer::Error("11 BadHashEntry 1024 7"),
        ),
        (
            "a short numsync",
            NUMSYNC,
            512,
            2048,
            512,
            &[],
            60,
            Answer::Error("3 ShortFile"),
        ),
        (
            "the same, with another size of blocks",
            NUMSYNC,
            768,
            3072,
            768,
            &[],
            60,
            Answer::Error("3 ShortFile"),
        ),
    ]
}

/// A row shows something: bytes of the worked file that are changed, its length, and what is answered.
pub type ChangedRow = (&'static str, &'static [(usize, u8)], usize, Answer<'static>);

/// The bytes of a row's file, or none where a place is past its end.
pub fn changed_file(alloc: Global, row: &ChangedRow) -> Result<Option<Vec<u8>>, AllocError> {
    let mut file = file_of(alloc, &worked(STANDARD))?;
    for (at, byte) in row.1 {
        let Some(place) = file.get_mut(*at) else {
            return Ok(None);
        };
        *place = *byte;
    }
    file.truncate(row.2);
    Ok(Some(file))
}

// The slot 7, moved to the slot 8.
const MOVED: [(usize, u8); 12] = [
    (1304, 0xff),
    (1305, 0xff),
    (1306, 0xff),
    (1307, 0xff),
    (1328, 0x17),
    (1329, 0x83),
    (1330, 0x09),
    (1331, 0x1b),
    (1332, 0x6b),
    (1337, 0x06),
    (1344, 1),
    (1348, 1),
];

// A second free extent that covers the record does not matter to a reader.
const COVERED: [(usize, u8); 3] = [(1024, 2), (1048, 2), (1057, 0x06)];

/// The worked file with changed bytes.
pub fn changed_rows() -> [ChangedRow; 15] {
    [
        (
            "free space over the record",
            &COVERED,
            1538,
            Answer::Dump("standard", ONE),
        ),
        (
            "a count of slots",
            &[(28, 0x11)],
            1538,
            Answer::Error("7 BadHeader"),
        ),
        (
            "cut in the directory",
            &[],
            1023,
            Answer::Error("7 BadHeader"),
        ),
        (
            "cut behind the header's words",
            &[],
            40,
            Answer::Error("7 BadHeader"),
        ),
        (
            "an entry that leads elsewhere",
            &[(553, 0x08)],
            1538,
            Answer::Error("8 BadDirEntry 5"),
        ),
        (
            "cut in the bucket",
            &[],
            1535,
            Answer::Error("8 BadDirEntry 0"),
        ),
        (
            "bits of a bucket that has half of the directory",
            &[(1128, 0x01)],
            1538,
            Answer::Error("8 BadDirEntry 32"),
        ),
        (
            "more bits than the directory's",
            &[(1128, 0x07)],
            1538,
            Answer::Error("9 BadBucket 1024"),
        ),
        (
            "more free extents than there are",
            &[(1024, 0x07)],
            1538,
            Answer::Error("9 BadBucket 1024"),
        ),
        (
            "a count of records",
            &[(1132, 0x02)],
            1538,
            Answer::Error("10 BadHashTable 1024"),
        ),
        (
            "a slot behind its run",
            &MOVED,
            1538,
            Answer::Error("10 BadHashTable 1024"),
        ),
        (
            "a length of a value",
            &[(1324, 0x02)],
            1538,
            Answer::Error("11 BadHashEntry 1024 7"),
        ),
        (
            "another key",
            &[(1536, 0x6c)],
            1538,
            Answer::Error("11 BadHashEntry 1024 7"),
        ),
        (
            "cut in the record",
            &[],
            1537,
            Answer::Error("11 BadHashEntry 1024 7"),
        ),
        (
            "another hash",
            &[(1304, 0x18)],
            1538,
            Answer::Error("11 BadHashEntry 1024 7"),
        ),
    ]
}

/// What is no database.
pub fn other_files() -> [(&'static [u8], Answer<'static>); 3] {
    [
        (b"", Answer::Error("3 ShortFile")),
        (&[0xcf; 39], Answer::Error("3 ShortFile")),
        (
            b"some text that is no database, of more than forty bytes",
            Answer::Error("4 BadMagic"),
        ),
    ]
}

/// A row shows something: words, the size of a block and the records of their file, and what stands behind the head of its
/// binary dump.
pub type BinaryRow = (
    &'static str,
    &'static [&'static str],
    u32,
    &'static [Record<'static>],
    &'static [u8],
);

/// Binary dumps.
pub fn binary_rows() -> [BinaryRow; 6] {
    [
        (
            "a record",
            &["-H", "binary", "a"],
            512,
            &[K],
            b"\0\0\0\x01k\0\0\0\x01v",
        ),
        ("no record", &["-H0", "a"], 512, &[], b""),
        (
            "an empty key and an empty value",
            &["--format=binary", "a"],
            4096,
            &[EMPTY],
            b"\0\0\0\0\0\0\0\0",
        ),
        (
            "a value that is empty",
            &["--format", "binary", "a"],
            512,
            &[NO_VALUE],
            b"\0\0\0\x01k\0\0\0\0",
        ),
        (
            "a byte that is no text",
            &["a", "-H", "binary"],
            512,
            &[HIGH],
            b"\0\0\0\x01\x80\0\0\0\x01v",
        ),
        (
            "two records, in the order of their slots",
            &["--format=0", "--", "a"],
            512,
            &[HIGH, K],
            b"\0\0\0\x01k\0\0\0\x01v\0\0\0\x01\x80\0\0\0\x01v",
        ),
    ]
}

/// Words that ask for an ASCII dump of `a`.
pub fn ascii_words() -> [&'static [&'static str]; 6] {
    [
        &["a"],
        &["--", "a"],
        &["-H", "ascii", "a"],
        &["-H1", "a"],
        &["--format=1", "a"],
        &["a", "--format", "ascii"],
    ]
}

const USAGE: &[u8] = b"gdbm_dump: usage error\n";

/// Names that are absent and words that are refused, over a file `a` without bytes.
pub fn words_rows() -> [(&'static [&'static str], u8, &'static [u8]); 14] {
    [
        (&["b"], 1, b"gdbm_dump: error 1 Absent\n"),
        (&["-H", "binary", "b"], 1, b"gdbm_dump: error 1 Absent\n"),
        (&["--", "-H"], 1, b"gdbm_dump: error 1 Absent\n"),
        (&[], 3, USAGE),
        (&["a", "b"], 3, USAGE),
        (&["-a"], 3, USAGE),
        (&[""], 3, USAGE),
        (&["a.mode"], 3, USAGE),
        (&["a\0"], 3, USAGE),
        (&["-H", "a"], 3, USAGE),
        (&["-H", "2", "a"], 3, USAGE),
        (&["-H", "0", "-H", "0", "a"], 3, USAGE),
        (&["-H", "binary", "a", "b"], 3, USAGE),
        (&["--format=", "a"], 3, USAGE),
    ]
}

/// Words, and the status where standard error fails: that of refused words stands, and any other fault is 1.
pub fn silent_rows() -> [(&'static [&'static str], u8); 3] {
    [(&[], 3), (&["b"], 1), (&["a"], 0)]
}
