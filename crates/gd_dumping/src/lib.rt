//! A run of `gdbm_dump`: its words, the dump of a database file in either form, the line on standard error, the status.
#![tactic(auto)]

mod dump;
mod ending;
mod parts;
mod run;

pub use ending::{Ending, report};
pub use run::dump_by_words;
