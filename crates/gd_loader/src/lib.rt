//! The run of `gdbm_load`: its words, its dump, its database, and what is said of it.
#![tactic(auto)]

mod ending;
mod held;
mod loader;

pub use ending::{RunEnd, report};
pub use loader::load_run;
