//! Names, data, errors and the traits of the outside: what every other crate of the workspace speaks of.
#![tactic(auto)]

mod calls;
mod clocks;
mod datum;
mod error_lines;
mod errors;
mod mem_clock;
mod mem_source;
mod memory;
mod names;
mod pages;
mod sources;
mod streams;

pub use calls::CallList;
pub use clocks::Clock;
pub use datum::Datum;
pub use error_lines::put_error;
pub use errors::{AddError, DbError, Failed, Format, OutOfMemory, Which};
pub use mem_clock::MemClock;
pub use mem_source::MemSource;
pub use memory::MemSink;
pub use names::{Name, NameError};
pub use pages::{Page, flush, put};
pub use sources::Source;
pub use streams::{Sink, write_all};

#[cfg(test)]
mod tests;
