//! The readers of dumps, which take their input piece by piece.
#![tactic(auto)]

mod ascii_machine;
mod binary_machine;
mod items;
mod lines;
mod live;
mod machine;
mod names;
mod numbers;
mod params;
mod reader;
mod room;
mod text;

pub use ascii_machine::AsciiMachine;
pub use binary_machine::BinaryMachine;
pub use items::{DumpError, DumpHead, DumpKind, Fed, Item, Refusal};
pub use machine::Machine;
pub use reader::{AsciiReader, BinaryReader, Reader};

#[cfg(test)]
mod tests;
