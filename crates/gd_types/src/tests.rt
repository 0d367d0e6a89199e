use crate::{Definition, EncodeError, Member, TypeError, Words, encode};
use gd_base::Datum;
use std::alloc::Global;
use std::test::Fail;

mod decoding;
mod definitions;
mod encoding;
mod numerals;
mod printing;
mod scalars;
mod tables;

/// A definition of members that are accepted, and no float.
fn defined(alloc: Global, braces: bool, members: &[Member]) -> Result<Definition, Fail> {
    let mut definition = Definition::new(alloc, braces);
    for member in members {
        if !definition.accepts(*member) {
            return Err(Fail::from("a member that is not accepted"));
        }
        definition.push(*member)?;
    }
    Ok(definition)
}

fn encoded(
    alloc: Global,
    definition: &Definition,
    words: &[&str],
) -> Result<Result<Datum, TypeError>, Fail> {
    if definition.has_float() {
        return Err(Fail::from("a float"));
    }
    let mut values = Words::new(alloc);
    for word in words {
        values.push(Datum::from_slice(alloc, word.as_bytes())?)?;
    }
    match encode(alloc, definition, &values) {
        Ok(datum) => Ok(Ok(datum)),
        Err(EncodeError::Typed(error)) => Ok(Err(error)),
        Err(EncodeError::OutOfMemory) => Err(Fail::from("no memory")),
    }
}
