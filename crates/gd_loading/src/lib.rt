//! Loads a dump into a database, each pair as it comes.
#![tactic(auto)]

mod loading;
mod taking;

pub use loading::{LoadEnd, Plan, load};
pub use taking::{Ending, store_pairs};
