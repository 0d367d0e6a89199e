//! What a file has of free space, by its bytes.

use crate::trial::Trial;
use gd_base::{Datum, Name};
use gd_layout::{Native, u32_from};
use gd_memvault::MemVault;
use gd_vault::{Mode, Vault};
use gd_verify::sound;
use std::alloc::Global;
use std::test::Fail;

/// May a file with these bytes be opened to write?
pub fn is_sound(alloc: Global, bytes: &[u8]) -> Result<bool, Fail> {
    let mut vault = MemVault::plain(alloc);
    let name = Name::new(alloc, "p.gdbm")?;
    let copy = Datum::from_slice(alloc, bytes).map_err(|_| "memory")?;
    let again = Name::new(alloc, "p.gdbm")?;
    vault
        .add_file(name, copy, Mode::Both, 0)
        .map_err(|_| "a file")?;
    match vault.lookup(&again) {
        Ok(Some(f)) => Ok(sound(alloc, &mut vault, f).is_ok()),
        _ => Err("no file".into()),
    }
}

// The bytes of a block of the stack with its extents, of these extents alone, and the next address.
fn block_sums(block: &[u8]) -> Option<(u64, u64, u64)> {
    if block.len() < 16 {
        return None;
    }
    let head = Native::raw_avail(block);
    if head.count < 0 || head.next_block < 0 {
        return None;
    }
    let count = head.count.cast_unsigned() as usize;
    let size = 16 + 16 * count;
    if size > block.len() {
        return None;
    }
    let mut free: u64 = 0;
    for e in 0..count {
        free = free.saturating_add(u64::from(u32_from(block, 16 + 16 * e)));
    }
    Some((size as u64, free, head.next_block.cast_unsigned()))
}

/// The bytes of the blocks of a stack, and of their extents.
pub fn stack_sums(file: &[u8], top: u64) -> Option<(u64, u64)> {
    let mut at = top;
    let mut held: u64 = 0;
    let mut free: u64 = 0;
    for _block in 0..1000 {
        if at == 0 {
            return Some((held, free));
        }
        if at >= file.len() as u64 {
            return None;
        }
        let (size, extents, next) = block_sums(&file[at as usize..])?;
        held = held.saturating_add(size);
        free = free.saturating_add(extents);
        at = next;
    }
    None
}

/// How many bytes are in no extent, and not in use, of a file whose patched bytes are sound.
pub fn lost_bytes(alloc: Global, trial: &Trial) -> Result<u64, Fail> {
    let bytes = trial.patched(alloc)?;
    if !is_sound(alloc, bytes.as_slice())? {
        return Err("not sound".into());
    }
    let Some((held, free)) = stack_sums(bytes.as_slice(), trial.top()) else {
        return Err("no stack".into());
    };
    let known = [1536, trial.used_bytes(), trial.held_free(), held, free];
    let mut rest = trial.next_block();
    for part in known {
        let Some(less) = rest.checked_sub(part) else {
            return Err("more than there is".into());
        };
        rest = less;
    }
    Ok(rest)
}
