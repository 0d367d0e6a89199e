//! The numsync of an open file, and its change from one format to the other.
#![tactic(auto)]

mod converting;
mod laws;
mod numbers;
mod shrinking;
mod turning;
mod writing;

pub use crate::converting::convert;
pub use crate::laws::front_is_kept;
pub use crate::numbers::{bump_numsync, set_numsync};
pub use crate::shrinking::shrink;
