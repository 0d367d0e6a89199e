//! A vault of one file for tests, which tells nothing of it.
#![tactic(auto)]

mod small_vault;

pub use crate::small_vault::SmallVault;
