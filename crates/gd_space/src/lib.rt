//! The free space of a file: the table in its header, the stack of blocks below that, and the free extents of one bucket.
//!
//! `Space::take` hands out room, `Space::give` takes it back, and `Space::recut` changes the capacity of the table. They
//! write blocks of the stack alone, and take no memory. The caller writes the header, the table and the bucket afterwards.
#![tactic(auto)]

mod filling;
mod give;
mod grow;
mod half;
mod laws;
mod lists;
#[cfg(test)]
mod marks;
mod push;
mod room;
mod space;
mod stack;
mod take;
#[cfg(test)]
mod tests;
#[cfg(test)]
mod trial;

pub use crate::laws::{give_gains, stays_apart, take_loses, used_is_kept};
pub use crate::space::Space;
pub use crate::stack::SpaceError;
