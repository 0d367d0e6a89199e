//! Reads an open database: the look-up of a key, the keys in file order, and the number of records.
#![tactic(auto)]

mod candidates;
mod following;
mod laws;
mod records;
#[cfg(test)]
mod tests;
mod totals;

pub use crate::candidates::find_key;
pub use crate::following::{first_key, key_after};
pub use crate::laws::{bucket_of_key, look_up_tells};
pub use crate::records::{bucket_address, read_key, read_value};
pub use crate::totals::count;
use gd_base::Datum;

/// What follows a key in file order.
#[derive(Debug, Drop)]
pub enum Successor {
    /// The key is not there.
    Absent,
    /// The key is the last one.
    Last,
    Key(Datum),
}
