//! An open database file: its header and its table of free space as they stand in memory, and all of its input and output.
//!
//! Each part of the file is read and written at one place: the entries of the directory, the blocks of buckets, the
//! header's block, records, and free space. No call checks the file again.
#![tactic(auto)]

mod file;
mod reading;
mod room;
mod writing;

pub use crate::file::OpenFile;
pub use gd_base::DbError;
