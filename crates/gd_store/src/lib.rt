//! A database: a finite map from keys to values, in one file of a vault.
//!
//! `Store::create` makes a new file and `Store::open_file` opens one that is there, after it was checked whole. The other
//! calls answer by the map and the file order, and each changing call leaves a file that is sound again. After a fault of
//! the vault in a changing call the store is broken, and refuses.
#![tactic(auto)]

mod access;
mod deleting;
mod laws;
mod locating;
mod opening;
mod reading;
mod store;
mod storing;

pub use crate::access::{Access, How};
pub use crate::laws::{fits_stays, keys_are_of_pairs};
pub use crate::store::Store;
