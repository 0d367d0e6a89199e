//! A vault in memory, which tells what it holds, or all that it has been, and gives each image that a crash may leave.
#![tactic(auto)]

mod changes;
mod choices;
mod disk;
mod files;
mod images;
mod log;
mod memory;
mod steps;
mod torn;
mod vault;

pub use memory::MemVault;
