//! What a crash leaves of a file's bytes.

ghost use Rattle.std.specs.Prelude.{◌≡◌, ◌≤◌, ◌<◌, ◌+◌, ◌^◌, length, max, IfOk, OnOk, OnErr};
ghost use Rattle.gd_vault.specs.Effects.{Torn};

use crate::choices::Choices;
use crate::files::write_range;
use gd_base::OutOfMemory;
use std::alloc::Global;

// The front as it is, and one value after it.
fn spoil(bytes: &mut [u8], choices: &mut Choices) {
    let keep = choices.up_to(bytes.len());
    let value = choices.byte();
    for byte in bytes[keep..].iter_mut() {
        *byte = value;
    }
}

/// Other bytes, and fewer.
pub fn scramble(bytes: &mut Vec<u8>, choices: &mut Choices) {
    spoil(bytes, choices);
    let missing = choices.up_to(bytes.len());
    bytes.truncate(bytes.len() - missing);
}

fn spoilt(alloc: Global, part: &[u8], choices: &mut Choices) -> Result<Vec<u8>, OutOfMemory>
    ensures { IfOk result (λ v. length v.items ≡ length part.now) }
{
    match part.to_vec(alloc) {
        Ok(mut bytes) => {
            spoil(&mut bytes, choices);
            Ok(bytes)
        }
        Err(_) => Err(OutOfMemory),
    }
}

/// Writes a part, and cuts what is past the old end and past a length.
pub fn write_cut(
    bytes: &mut Vec<u8>,
    at: usize,
    part: &[u8],
    most: usize,
) -> Result<(), OutOfMemory>
    requires { at + length part.now < 2 ^ 63 }
    ensures torn { OnOk result (Torn at (length part.now) bytes.old.items bytes.new.items) }
    ensures no_longer { OnOk result (length bytes.new.items ≤ max (length bytes.old.items) most) }
{
    let old = bytes.len();
    match write_range(bytes, at, part) {
        Ok(()) => {
            bytes.truncate(old.max(most));
            Ok(())
        }
        Err(OutOfMemory) => Err(OutOfMemory),
    }
}

/// A part is written with some of its bytes spoilt, and up to some length.
pub fn tear(
    alloc: Global,
    bytes: &mut Vec<u8>,
    at: usize,
    part: &[u8],
    most: usize,
    choices: &mut Choices,
) -> Result<(), OutOfMemory>
    requires { at + length part.now < 2 ^ 63 }
    ensures torn { OnOk result (Torn at (length part.now) bytes.old.items bytes.new.items) }
    ensures no_longer { OnOk result (length bytes.new.items ≤ max (length bytes.old.items) most) }
{
    let spoilt = spoilt(alloc, part, choices)?;
    let missing = choices.up_to(most);
    write_cut(bytes, at, &spoilt, most - missing)
}
