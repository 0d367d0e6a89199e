//! The blocks of free space: the table in the header's block, and the stack.

ghost use Rattle.std.specs.Prelude.{◌≡◌, ◌+◌, ◌-◌, ◌*◌, ◌/◌, ◌<◌, ◌≤◌, ◌^◌, true, false, None, ◌++◌, length, drop, IfOk, IfErr, IfNone, IfSome};
ghost use Rattle.std.specs.List.{All, flat_map};
ghost use Rattle.gd_format.specs.Avail.{is_avail, next_at};
ghost use Rattle.gd_format.specs.Headers.{IsHeader};
ghost use Rattle.gd_format.specs.Sound.{most_of, place_of, stack_fault, stack_held, stack_places, table_held, table_of, top_of};
ghost use Rattle.gd_verify.specs.Apart.{IsPlain, MeetsAlike};
ghost use Rattle.gd_readable.specs.Asks.{kept_of, bytes_in, is_there, Tells, IsCause, is_of_sound};
ghost use Rattle.gd_verify.specs.Known.{IsReadBy};
ghost use Rattle.gd_verify.specs.Refused.{blocks_fault, blocks_held};

use crate::held::push_avail;
use crate::stack::stack_refusal;
use gd_base::DbError;
use gd_format::{Header, Held};
use gd_layout::Native;
use gd_readable::{Stopped, fill};
use gd_vault::{FileId, Vault};
use std::alloc::Global;

// The place of the table in the header's block.
fn table_place(header: &Header) -> u32
    ensures place { result ≡ place_of header.now }
    ensures most { result ≤ 72 }
{
    if header.magic == 0x13579ad1 { 72 } else { 40 }
}

// The address of the block below, as its bits without a sign.
#[tactic(auto, unfolding(gd_format::specs::Avail::next_at))]
fn next_of(block: &[u8]) -> u64
    requires { 16 ≤ length block.now }
    ensures { result ≡ next_at block.now }
{
    Native::raw_avail(block).next_block.cast_unsigned()
}

// Reads the table and puts its extents last. Answers the address of the top of the stack, or None where the table is not
// right.
#[tactic(auto, using(gd_readable::proofs::Headers::header_room, crate::proofs::Tables::table_fits))]
fn read_table<V: Vault>(
    vault: &mut V,
    f: FileId,
    header: &Header,
    block: &mut [u8],
    list: &mut Vec<Held>,
) -> Result<Option<u64>, Stopped>
    requires there { is_there (kept_of (V.view_of vault.old)) f.0 ≡ true }
    requires header { IsHeader header.now }
    requires size { length block.old ≡ header.now.block }
    requires plain { All IsPlain list.old.items }
    ensures same { kept_of (V.view_of vault.new) ≡ kept_of (V.view_of vault.old) }
    ensures later { (V.view_of vault.old).faults ≤ (V.view_of vault.new).faults }
    ensures answered { IfOk result (λ _. (V.view_of vault.new).faults ≡ (V.view_of vault.old).faults) }
    ensures failed { IfErr result (λ e. IsCause e (V.view_of vault.old).faults (V.view_of vault.new).faults) }
    ensures plain { IfOk result (λ _. All IsPlain list.new.items) }
    ensures wrong { IfOk result (λ r. IfNone r (Tells (bytes_in (kept_of (V.view_of vault.old)) f.0) (λ file. IsReadBy file header.now → is_avail (table_of file header.now) header.now.avail_size ≡ false))) }
    ensures right { IfOk result (λ r. IfSome r (λ top. Tells (bytes_in (kept_of (V.view_of vault.old)) f.0) (λ file. IsReadBy file header.now → (is_avail (table_of file header.now) header.now.avail_size ≡ true) × (top ≡ top_of file header.now) × (list.new.items ≡ list.old.items ++ table_held file header.now)))) }
{
    if !fill(vault, f, 0, block)? {
        return Ok(None);
    }
    let place = table_place(header);
    let table = &block[place as usize..];
    let Ok(right) = push_avail(table, header.avail_size, u64::from(place), list) else {
        return Err(Stopped::NoMemory);
    };
    if !right {
        return Ok(None);
    }
    Ok(Some(next_of(table)))
}

// The refusal of the stack, with a buffer for a block. Puts its blocks last, and their extents.
#[tactic(auto, using(crate::proofs::Tables::header_block))]
fn stack_of<V: Vault>(
    alloc: Global,
    vault: &mut V,
    f: FileId,
    header: &Header,
    top: u64,
    len: u64,
    list: &mut Vec<Held>,
) -> Result<Option<DbError>, Stopped>
    requires there { is_there (kept_of (V.view_of vault.old)) f.0 ≡ true }
    requires header { IsHeader header.now }
    requires plain { All IsPlain list.old.items }
    ensures same { kept_of (V.view_of vault.new) ≡ kept_of (V.view_of vault.old) }
    ensures later { (V.view_of vault.old).faults ≤ (V.view_of vault.new).faults }
    ensures answered { IfOk result (λ _. (V.view_of vault.new).faults ≡ (V.view_of vault.old).faults) }
    ensures failed { IfErr result (λ e. IsCause e (V.view_of vault.old).faults (V.view_of vault.new).faults) }
    ensures kind { IfOk result (λ r. IfSome r (λ e. is_of_sound e ≡ true)) }
    ensures plain { IfOk result (λ _. All IsPlain list.new.items) }
    ensures refusal { IfOk result (λ r. Tells (bytes_in (kept_of (V.view_of vault.old)) f.0) (λ file. length file ≡ len → IsReadBy file header.now → r ≡ stack_fault file (most_of header.now) top)) }
    ensures held { IfOk result (λ r. Tells (bytes_in (kept_of (V.view_of vault.old)) f.0) (λ file. length file ≡ len → IsReadBy file header.now → r ≡ None → MeetsAlike (list.old.items ++ flat_map (stack_held file) (stack_places file top)) list.new.items)) }
{
    let most = (header.block - 56) / 16;
    let Ok(mut buf) = vec![in alloc; 0u8; 16 + 16 * most as usize] else {
        return Err(Stopped::NoMemory);
    };
    stack_refusal(alloc, vault, f, most, top, len, &mut buf, list)
}

/// The refusal of the table of free space and of the stack, in a file of `len` bytes. Puts their extents last, or of
/// blocks that meet at least so many that two extents meet.
#[tactic(auto, using(gd_readable::proofs::Asks::cause_later))]
pub fn blocks_refusal<V: Vault>(
    alloc: Global,
    vault: &mut V,
    f: FileId,
    header: &Header,
    len: u64,
    list: &mut Vec<Held>,
) -> Result<Option<DbError>, Stopped>
    requires there { is_there (kept_of (V.view_of vault.old)) f.0 ≡ true }
    requires header { IsHeader header.now }
    requires plain { All IsPlain list.old.items }
    ensures same { kept_of (V.view_of vault.new) ≡ kept_of (V.view_of vault.old) }
    ensures later { (V.view_of vault.old).faults ≤ (V.view_of vault.new).faults }
    ensures answered { IfOk result (λ _. (V.view_of vault.new).faults ≡ (V.view_of vault.old).faults) }
    ensures failed { IfErr result (λ e. IsCause e (V.view_of vault.old).faults (V.view_of vault.new).faults) }
    ensures kind { IfOk result (λ r. IfSome r (λ e. is_of_sound e ≡ true)) }
    ensures plain { IfOk result (λ _. All IsPlain list.new.items) }
    ensures refusal { IfOk result (λ r. Tells (bytes_in (kept_of (V.view_of vault.old)) f.0) (λ file. length file ≡ len → IsReadBy file header.now → r ≡ blocks_fault file header.now)) }
    ensures held { IfOk result (λ r. Tells (bytes_in (kept_of (V.view_of vault.old)) f.0) (λ file. length file ≡ len → IsReadBy file header.now → r ≡ None → MeetsAlike (list.old.items ++ blocks_held file header.now) list.new.items)) }
{
    let Ok(mut block) = vec![in alloc; 0u8; header.block as usize] else {
        return Err(Stopped::NoMemory);
    };
    let table = read_table(vault, f, header, &mut block, list)?;
    let Some(top) = table else {
        return Ok(Some(DbError::BadAvail(u64::from(table_place(header)))));
    };
    let refusal = stack_of(alloc, vault, f, header, top, len, list)?;
    Ok(refusal)
}
