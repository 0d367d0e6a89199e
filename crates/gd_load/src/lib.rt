//! The items of a dump, from a source.
#![tactic(auto)]

mod front;
mod incoming;

pub use front::{Begun, Front, start};
pub use incoming::{Incoming, Stop};

#[cfg(test)]
mod tests;
