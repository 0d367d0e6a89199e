//! The buckets of a file that were used last, each of which equals its block as the file reads.
#![tactic(auto)]

mod blocks;
mod cache;
mod errors;
mod kept;
#[cfg(test)]
mod tests;

pub use crate::cache::Cache;
pub use crate::errors::CacheError;
