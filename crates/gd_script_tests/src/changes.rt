//! Changes of a small file, and what they are answered.

use gd_base::DbError;

/// A change of the small file: its length, and bytes at a place; and what it is answered.
#[derive(Clone, Copy)]
pub struct Change {
    pub len: usize,
    pub at: usize,
    pub bytes: &'static [u8],
    pub error: DbError,
    pub line: &'static [u8],
    /// Is a reader refused too?
    pub reader: bool,
}

fn changed(at: usize, bytes: &'static [u8], error: DbError, line: &'static [u8]) -> Change {
    Change {
        len: 1538,
        at,
        bytes,
        error,
        line,
        reader: true,
    }
}

fn cut(len: usize, error: DbError, line: &'static [u8]) -> Change {
    Change {
        len,
        at: 0,
        bytes: b"",
        error,
        line,
        reader: true,
    }
}

fn unsound(at: usize, bytes: &'static [u8], error: DbError, line: &'static [u8]) -> Change {
    Change {
        len: 1538,
        at,
        bytes,
        error,
        line,
        reader: false,
    }
}

/// Changes of the header and the length.
pub fn headers() -> [Change; 8] {
    [
        cut(39, DbError::ShortFile, b"gdbmtool: 1: error 3 ShortFile\n"),
        changed(
            0,
            &[0x13, 0x57, 0x9a, 0xcf],
            DbError::ByteSwapped,
            b"gdbmtool: 1: error 5 ByteSwapped\n",
        ),
        changed(
            0,
            &[0xcd],
            DbError::WrongOffset,
            b"gdbmtool: 1: error 6 WrongOffset\n",
        ),
        changed(
            0,
            &[0; 4],
            DbError::BadMagic,
            b"gdbmtool: 1: error 4 BadMagic\n",
        ),
        changed(
            5,
            &[3],
            DbError::BlockSize,
            b"gdbmtool: 1: error 2 BlockSize\n",
        ),
        changed(
            28,
            &[0x11],
            DbError::BadHeader,
            b"gdbmtool: 1: error 7 BadHeader\n",
        ),
        cut(
            1023,
            DbError::BadHeader,
            b"gdbmtool: 1: error 7 BadHeader\n",
        ),
        unsound(
            32,
            &[0, 4],
            DbError::NeedRecovery,
            b"gdbmtool: 1: error 13 NeedRecovery\n",
        ),
    ]
}

/// Changes of the directory and the bucket.
pub fn buckets() -> [Change; 11] {
    [
        changed(
            553,
            &[8],
            DbError::BadDirEntry(5),
            b"gdbmtool: 1: error 8 BadDirEntry 5\n",
        ),
        cut(
            1535,
            DbError::BadDirEntry(0),
            b"gdbmtool: 1: error 8 BadDirEntry 0\n",
        ),
        changed(
            1128,
            &[1],
            DbError::BadDirEntry(32),
            b"gdbmtool: 1: error 8 BadDirEntry 32\n",
        ),
        changed(
            1128,
            &[7],
            DbError::BadBucket(1024),
            b"gdbmtool: 1: error 9 BadBucket 1024\n",
        ),
        changed(
            1024,
            &[7],
            DbError::BadBucket(1024),
            b"gdbmtool: 1: error 9 BadBucket 1024\n",
        ),
        changed(
            1132,
            &[2],
            DbError::BadHashTable(1024),
            b"gdbmtool: 1: error 10 BadHashTable 1024\n",
        ),
        changed(
            1304,
            &[
                0xff, 0xff, 0xff, 0xff, 0, 0, 0, 0, 0, 0, 0, 0, 0, 0, 0, 0, 0, 0, 0, 0, 0, 0, 0, 0,
                0x17, 0x83, 0x09, 0x1b, 0x6b, 0, 0, 0, 0, 6, 0, 0, 0, 0, 0, 0, 1, 0, 0, 0, 1, 0, 0,
                0,
            ],
            DbError::BadHashTable(1024),
            b"gdbmtool: 1: error 10 BadHashTable 1024\n",
        ),
        changed(
            1304,
            &[0x18],
            DbError::BadHashEntry(1024, 7),
            b"gdbmtool: 1: error 11 BadHashEntry 1024 7\n",
        ),
        changed(
            1324,
            &[2],
            DbError::BadHashEntry(1024, 7),
            b"gdbmtool: 1: error 11 BadHashEntry 1024 7\n",
        ),
        changed(
            1536,
            &[0x6c],
            DbError::BadHashEntry(1024, 7),
            b"gdbmtool: 1: error 11 BadHashEntry 1024 7\n",
        ),
        cut(
            1537,
            DbError::BadHashEntry(1024, 7),
            b"gdbmtool: 1: error 11 BadHashEntry 1024 7\n",
        ),
    ]
}

/// Changes of the free space.
pub fn free_space() -> [Change; 6] {
    [
        unsound(
            33,
            &[6],
            DbError::NeedRecovery,
            b"gdbmtool: 1: error 13 NeedRecovery\n",
        ),
        unsound(
            44,
            &[0x1d],
            DbError::BadAvail(40),
            b"gdbmtool: 1: error 12 BadAvail 40\n",
        ),
        unsound(
            48,
            &[0, 0x10, 0, 0],
            DbError::BadAvail(4096),
            b"gdbmtool: 1: error 12 BadAvail 4096\n",
        ),
        unsound(
            1032,
            &[0; 4],
            DbError::BadAvail(1024),
            b"gdbmtool: 1: error 12 BadAvail 1024\n",
        ),
        unsound(
            1040,
            &[0],
            DbError::BadAvail(1024),
            b"gdbmtool: 1: error 12 BadAvail 1024\n",
        ),
        // A second free extent, over the record.
        unsound(
            1024,
            &[
                2, 0, 0, 0, 0, 0, 0, 0, 0xfe, 1, 0, 0, 0, 0, 0, 0, 2, 6, 0, 0, 0, 0, 0, 0, 2, 0, 0,
                0, 0, 0, 0, 0, 0, 6,
            ],
            DbError::BadAvail(1024),
            b"gdbmtool: 1: error 12 BadAvail 1024\n",
        ),
    ]
}
