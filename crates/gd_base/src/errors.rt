//! The errors of the database, with their numbers and names.

ghost use Rattle.std.specs.Prelude.{◌≡◌};
ghost use Rattle.gd_base.specs.Errors.{number_of, name_of};

use thiserror::Error;

/// A call of a device failed.
#[derive(Clone, Copy, Debug, PartialEq, Eq)]
pub struct Failed;

/// No memory was found.
#[derive(Clone, Copy, Debug, PartialEq, Eq)]
pub struct OutOfMemory;

/// Why a file was not added to a vault in memory.
#[derive(Clone, Copy, Debug, PartialEq, Eq, Error)]
pub enum AddError {
    #[error("the name stands for a file")]
    Exists,
    #[error("out of memory")]
    OutOfMemory,
}

/// The two native formats of a file.
#[derive(Clone, Copy, Debug, PartialEq, Eq)]
pub enum Format {
    Standard,
    /// With a count of syncs in the header, which tells the newer of two snapshots.
    Numsync,
}

/// Which file of a command is meant: its only one, or one of the two snapshots.
#[derive(Clone, Copy, Debug, PartialEq, Eq)]
pub enum Which {
    Only,
    Even,
    Odd,
}

/// Why a call on a database, or on a database file, is refused.
///
/// The second to the twelfth are refusals of a file; `docs/FORMAT.md` says when each comes.
#[derive(Clone, Copy, Debug, PartialEq, Eq)]
pub enum DbError {
    /// The name stands for no file.
    Absent,
    BlockSize,
    ShortFile,
    BadMagic,
    ByteSwapped,
    WrongOffset,
    BadHeader,
    /// The index of a directory entry.
    BadDirEntry(u64),
    /// The address of a bucket.
    BadBucket(u64),
    /// The address of a bucket.
    BadHashTable(u64),
    /// The address of a bucket, and the number of a slot of it.
    BadHashEntry(u64, u32),
    /// The address of a table or block of free space, of a bucket, or of an extent.
    BadAvail(u64),
    NeedRecovery,
    ReaderCant,
    ItemNotFound,
    CannotReplace,
    DirOverflow,
    TooLarge,
    FileFull,
    Exists(Which),
    InUse,
    NotNumsync,
    AlreadyAtomic,
    SameName,
    InEpoch,
    NotOpen,
    VaultFault,
    ClockFault,
    OutOfMemory,
    /// The stamp that was kept, and the reading of the clock that is not above it.
    ClockStood(u64, u64),
}

impl DbError {
    /// The number by which programs print the error, from 1.
    pub fn number(&self) -> u8
        ensures { result ≡ number_of self.now }
    {
        match self {
            DbError::Absent => 1,
            DbError::BlockSize => 2,
            DbError::ShortFile => 3,
            DbError::BadMagic => 4,
            DbError::ByteSwapped => 5,
            DbError::WrongOffset => 6,
            DbError::BadHeader => 7,
            DbError::BadDirEntry(_) => 8,
            DbError::BadBucket(_) => 9,
            DbError::BadHashTable(_) => 10,
            DbError::BadHashEntry(_, _) => 11,
            DbError::BadAvail(_) => 12,
            DbError::NeedRecovery => 13,
            DbError::ReaderCant => 14,
            DbError::ItemNotFound => 15,
            DbError::CannotReplace => 16,
            DbError::DirOverflow => 17,
            DbError::TooLarge => 18,
            DbError::FileFull => 19,
            DbError::Exists(_) => 20,
            DbError::InUse => 21,
            DbError::NotNumsync => 22,
            DbError::AlreadyAtomic => 23,
            DbError::SameName => 24,
            DbError::InEpoch => 25,
            DbError::NotOpen => 26,
            DbError::VaultFault => 27,
            DbError::ClockFault => 28,
            DbError::OutOfMemory => 29,
            DbError::ClockStood(_, _) => 30,
        }
    }

    /// The name by which programs print the error.
    pub fn name(&self) -> &'static str
        ensures { result.now ≡ name_of self.now }
    {
        match self {
            DbError::Absent => "Absent",
            DbError::BlockSize => "BlockSize",
            DbError::ShortFile => "ShortFile",
            DbError::BadMagic => "BadMagic",
            DbError::ByteSwapped => "ByteSwapped",
            DbError::WrongOffset => "WrongOffset",
            DbError::BadHeader => "BadHeader",
            DbError::BadDirEntry(_) => "BadDirEntry",
            DbError::BadBucket(_) => "BadBucket",
            DbError::BadHashTable(_) => "BadHashTable",
            DbError::BadHashEntry(_, _) => "BadHashEntry",
            DbError::BadAvail(_) => "BadAvail",
            DbError::NeedRecovery => "NeedRecovery",
            DbError::ReaderCant => "ReaderCant",
            DbError::ItemNotFound => "ItemNotFound",
            DbError::CannotReplace => "CannotReplace",
            DbError::DirOverflow => "DirOverflow",
            DbError::TooLarge => "TooLarge",
            DbError::FileFull => "FileFull",
            DbError::Exists(_) => "Exists",
            DbError::InUse => "InUse",
            DbError::NotNumsync => "NotNumsync",
            DbError::AlreadyAtomic => "AlreadyAtomic",
            DbError::SameName => "SameName",
            DbError::InEpoch => "InEpoch",
            DbError::NotOpen => "NotOpen",
            DbError::VaultFault => "VaultFault",
            DbError::ClockFault => "ClockFault",
            DbError::OutOfMemory => "OutOfMemory",
            DbError::ClockStood(_, _) => "ClockStood",
        }
    }
}
