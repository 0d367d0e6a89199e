//! Typed data: definitions of keys and contents, words to bytes and bytes to text.
#![tactic(auto)]

mod decoding;
mod definition;
mod encoding;
mod errors;
mod laws;
mod members;
mod numerals;
mod printing;
mod rows;
mod scalars;
mod tables;
mod words;

pub use decoding::{check, decode, put_typed};
pub use definition::Definition;
pub use encoding::encode;
pub use errors::{DecodeError, EncodeError, TypeError};
pub use laws::{scalars_read_back, words_are_printed_back};
pub use members::Member;
pub use printing::put_printed;
pub use scalars::{SCALARS, Scalar, scalar_table};
pub use tables::{Found, Table};
pub use words::Words;

#[cfg(test)]
mod tests;
