//! Dumps: the portable texts of all records of a database. `gd_dump_reading` reads them.
#![tactic(auto)]

mod ascii_data;
mod ascii_writer;
mod binary_writer;
mod laws;

pub use ascii_writer::AsciiWriter;
pub use binary_writer::BinaryWriter;
pub use gd_dump_reading::{
    AsciiReader, BinaryReader, DumpError, DumpHead, DumpKind, Fed, Item, Machine, Reader,
};
pub use laws::{ascii_round_trip, base64_alphabet, binary_round_trip, strict_base64};

#[cfg(test)]
mod tests;
