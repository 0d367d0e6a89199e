//! Blocks of the stack in a vault.

ghost use Rattle.std.specs.Prelude.{◌≡◌, ◌≢◌, ◌⊎◌, ◌+◌, false, ◌*◌, ◌<◌, ◌≤◌, ◌^◌, ℕ, true, Some, is_ok, length, take, max, IfOk, OnOk, OnErr, IfErr, IfNone, IfSome};
ghost use Rattle.std.specs.List.{AllByRecursion};
ghost use Rattle.gd_base.specs.Causes.{Rose};
ghost use Rattle.gd_format.specs.HeaderFault.{is_within, natural};
ghost use Rattle.gd_format.specs.Avail.{count_at, next_at, extents_at, is_avail, avail_at, avail_size};
ghost use Rattle.gd_format.specs.Sound.{is_stack_block, stack_block};
ghost use Rattle.gd_format.specs.Field.{bytes_at};
ghost use Rattle.gd_layout.specs.Fits.{FitsExtent};
ghost use Rattle.gd_space.specs.Spells.{Spells};
ghost use Rattle.gd_vault.specs.Content.{File};
ghost use Rattle.gd_vault.specs.Events.Call.{Write};
ghost use Rattle.gd_vault.specs.Views.{View, HasFile, IsAt};
ghost use Rattle.gd_vault.specs.Changes.{TellsAfter};
ghost use Rattle.gd_space.specs.Effect.{WritesAtMost};
ghost use Rattle.gd_vault.specs.Streams.{OnlyWrites};
ghost use Rattle.gd_space.specs.declared.stack.SpaceError.TheVariants.{VaultFault, BadAvail};

use gd_base::Failed;
use gd_layout::{AvailBlock, Native};
use gd_vault::{FileId, Vault};

/// Why a call of the free space was refused.
#[derive(Clone, Copy, Debug, PartialEq, Eq)]
pub enum SpaceError {
    VaultFault,
    /// The file would grow past 2^46 bytes.
    FileFull,
    /// A block of free space is none, or is not where it has to be. It has this address.
    BadAvail(u64),
    OutOfMemory,
}

impl From<Failed> for SpaceError {
    ghost from_gives = { λ _ e. e ≡ VaultFault };

    fn from(_e: Failed) -> SpaceError {
        SpaceError::VaultFault
    }
}

// How many extents a block of free space has, where they are from 0 to `most`.
pub fn count_of(bytes: &[u8], most: u32) -> Option<u32>
    requires { 16 ≤ length bytes.now }
    ensures none { IfNone result (is_within (count_at bytes.now) 0 most ≡ false) }
    ensures some { IfSome result (λ k. (is_within (count_at bytes.now) 0 most ≡ true) × (k ≡ natural (count_at bytes.now)) × (k ≤ most)) }
{
    let count = Native::raw_avail(bytes).count;
    if count < 0 || count.cast_unsigned() > most {
        return None;
    }
    Some(count.cast_unsigned())
}

// Reads a block of free space into one with the room for it.
pub fn refill(bytes: &[u8], into: &mut AvailBlock) -> bool
    requires head { 16 ≤ length bytes.now }
    requires whole { is_within (count_at bytes.now) 0 into.old.room ≡ true → avail_size (natural (count_at bytes.now)) ≤ length bytes.now }
    ensures right { result ≡ is_avail bytes.now into.old.room }
    ensures read { result ≡ true → into.new ≡ avail_at bytes.now into.old.room }
    ensures fields { result ≡ true → AllByRecursion FitsExtent into.new.extents }
    ensures kept { result ≡ false → into.new ≡ into.old }
    ensures room { into.new.room ≡ into.old.room }
{
    Native::read_avail_into(bytes, into)
}

// Writes a block of free space, which takes all of the buffer.
fn put_block(avail: &AvailBlock, size: u32, into: &mut [u8])
    requires length { length into.old ≡ avail_size (length avail.now.extents) }
    requires elements { AllByRecursion FitsExtent avail.now.extents }
    requires size { size < 2 ^ 31 }
    requires count { length avail.now.extents < 2 ^ 31 }
    ensures { Spells size avail.now.extents avail.now.next_block into.new }
{
    Native::write_avail(avail, size, into);
}

/// Writes a block of the stack, with this capacity in its size field.
#[tactic(auto, using(gd_vault::proofs::Writes::writes))]
pub fn write_block<V: Vault>(
    vault: &mut V,
    f: FileId,
    block: &AvailBlock,
    at: u64,
    size: u32,
    buf: &mut [u8],
) -> Result<(), SpaceError>
    requires file { HasFile (V.view_of vault.old) f.0 }
    requires place { IsAt (V.view_of vault.old) (λ c. (x : File) → c.files f.0 ≡ Some x → at ≤ max (length x.bytes) (2 ^ 47)) }
    requires elements { AllByRecursion FitsExtent block.now.extents }
    requires size { size < 2 ^ 31 }
    requires room { avail_size (length block.now.extents) ≤ length buf.old }
    requires count { length block.now.extents < 2 ^ 31 }
    ensures wrote { TellsAfter (Write f.0 at (take (avail_size (length block.now.extents)) buf.new)) (is_ok result) (V.view_of vault.old).told (V.view_of vault.new).told }
    ensures amount { WritesAtMost (avail_size (length block.now.extents)) (V.view_of vault.old) (V.view_of vault.new) }
    ensures spells { Spells size block.now.extents block.now.next_block (take (avail_size (length block.now.extents)) buf.new) }
    ensures frame { OnlyWrites f.0 (V.view_of vault.old) (V.view_of vault.new) }
    ensures error { IfErr result (λ e. e ≡ VaultFault) }
    ensures fault { OnErr result (Rose (V.view_of vault.old).faults (V.view_of vault.new).faults) }
    ensures answered { OnOk result ((V.view_of vault.new).faults ≡ (V.view_of vault.old).faults) }
    ensures once { OnErr result ((V.view_of vault.new).faults ≤ (V.view_of vault.old).faults + 1) }
{
    let n = 16 + 16 * block.extents().len();
    let part = &mut buf[..n];
    put_block(block, size, part);
    vault.write_at(f, at, part)?;
    Ok(())
}

/// Reads a block of the stack into a list.
#[tactic(auto, using(gd_vault::proofs::Writes::writes))]
pub fn read_block<V: Vault>(
    vault: &mut V,
    f: FileId,
    at: u64,
    most: u32,
    spare: &mut AvailBlock,
    buf: &mut [u8],
) -> Result<(), SpaceError>
    requires file { HasFile (V.view_of vault.old) f.0 }
    requires few { most ≤ 65536 }
    requires room { spare.old.room ≡ most }
    requires buffer { avail_size most ≤ length buf.old }
    ensures told { (V.view_of vault.new).told ≡ (V.view_of vault.old).told }
    ensures frame { OnlyWrites f.0 (V.view_of vault.old) (V.view_of vault.new) }
    ensures extents { OnOk result (IsAt (V.view_of vault.old) (λ c. (x : File) → c.files f.0 ≡ Some x → spare.new.extents ≡ extents_at (stack_block x.bytes at))) }
    ensures next { OnOk result (IsAt (V.view_of vault.old) (λ c. (x : File) → c.files f.0 ≡ Some x → spare.new.next_block ≡ next_at (bytes_at x.bytes at 16))) }
    ensures fields { OnOk result (AllByRecursion FitsExtent spare.new.extents) }
    ensures room { spare.new.room ≡ spare.old.room }
    ensures amount { WritesAtMost 0 (V.view_of vault.old) (V.view_of vault.new) }
    ensures error { IfErr result (λ e. (e ≡ VaultFault) ⊎ (e ≡ BadAvail at)) }
    ensures fault { IfErr result (λ e. e ≡ VaultFault → Rose (V.view_of vault.old).faults (V.view_of vault.new).faults) }
    ensures answered { OnOk result ((V.view_of vault.new).faults ≡ (V.view_of vault.old).faults) }
    ensures once { OnErr result ((V.view_of vault.new).faults ≤ (V.view_of vault.old).faults + 1) }
    ensures counted { IfErr result (λ e. e ≢ VaultFault → (V.view_of vault.new).faults ≡ (V.view_of vault.old).faults) }
    ensures bad { IfErr result (λ e. e ≢ VaultFault → IsAt (V.view_of vault.old) (λ c. (x : File) → c.files f.0 ≡ Some x → is_stack_block x.bytes most at ≡ false)) }
{
    let whole = 16 + 16 * most as usize;
    let part = &mut buf[..whole];
    let n = vault.read_at(f, at, part)?;
    if n < 16 {
        return Err(SpaceError::BadAvail(at));
    }
    let Some(count) = count_of(&part[..16], most) else {
        return Err(SpaceError::BadAvail(at));
    };
    let size = 16 + 16 * count as usize;
    if size > n {
        return Err(SpaceError::BadAvail(at));
    }
    if !refill(&part[..size], spare) {
        return Err(SpaceError::BadAvail(at));
    }
    Ok(())
}
