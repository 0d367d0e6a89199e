//! Two snapshots of a database, and which of them is the newer one.
#![tactic(auto)]

mod choices;
mod choosing;
mod numbers;
#[cfg(test)]
mod tests;

pub use choices::{Choice, LatestError};
pub use choosing::latest;
