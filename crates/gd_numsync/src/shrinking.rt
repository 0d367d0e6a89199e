//! A table of free space that is made to fit a smaller capacity.

ghost use Rattle.std.specs.Prelude.{◌≡◌, Ok, ◌+◌, ◌*◌, ◌≤◌, ◌^◌, Some, max, true, length, is_ok, OnOk};
ghost use Rattle.gd_base.specs.Causes.{HasCause};
ghost use Rattle.gd_format.specs.Bucket.{bucket_at, is_bucket};
ghost use Rattle.gd_format.specs.File.{is_count_right};
ghost use Rattle.gd_format.specs.HeaderFault.{table_room};
ghost use Rattle.gd_space.specs.Effect.{WritesAtMost, recut_loses};
ghost use Rattle.gd_vault.specs.Content.{File};
ghost use Rattle.gd_vault.specs.Effects.{written};
ghost use Rattle.gd_vault.specs.Streams.{OnlyWrites};
ghost use Rattle.gd_vault.specs.Views.{HasFile, IsAt};
ghost use Rattle.gd_numsync.specs.Files.{AtFile, FileBecomes};
ghost use Rattle.gd_numsync.specs.Open.{AreFit, IsOpenOn};
ghost use Rattle.gd_numsync.specs.Recut.{IsBucketAt, IsRecut};

use crate::writing::write_front;
use gd_base::Failed;
use gd_format::Header;
use gd_layout::{Bucket, Native};
use gd_space::Space;
use gd_vault::{FileId, Vault};

// Writes the block of a bucket, at its address.
#[tactic(auto, using(gd_vault::proofs::Writes::writes))]
fn write_bucket<V: Vault>(
    vault: &mut V,
    f: FileId,
    at: u64,
    bucket: &Bucket,
    block: &mut [u8],
) -> Result<(), Failed>
    requires file { HasFile (V.view_of vault.old) f.0 }
    requires place { IsAt (V.view_of vault.old) (λ c. (x : File) → c.files f.0 ≡ Some x → at ≤ max (length x.bytes) (2 ^ 47)) }
    requires room { 112 + 24 * length bucket.now.slots ≤ length block.old }
    requires few { length bucket.now.slots ≤ 65536 }
    ensures becomes { OnOk result (FileBecomes (V.view_of vault.old) (V.view_of vault.new) f.0 (λ xs ys. ys ≡ written xs at block.new)) }
    ensures reads { bucket_at block.new (length bucket.now.slots) ≡ bucket.now }
    ensures right { is_bucket block.new (length bucket.now.slots) ≡ true }
    ensures count { is_count_right block.new (length bucket.now.slots) ≡ true }
    ensures size { length block.new ≡ length block.old }
    ensures there { HasFile (V.view_of vault.new) f.0 }
    ensures amount { WritesAtMost (length block.old) (V.view_of vault.old) (V.view_of vault.new) }
    ensures frame { OnlyWrites f.0 (V.view_of vault.old) (V.view_of vault.new) }
    ensures cause { HasCause (V.view_of vault.old).faults (V.view_of vault.new).faults result }
{
    Native::write_bucket(bucket, block);
    vault.write_at(f, at, block)?;
    Ok(())
}

/// Makes the table have no more extents than a smaller capacity, and writes it: `Space::recut` pushes those that are too many,
/// for which the bucket may give the room; then the blocks of the bucket and of the header are written.
///
/// `header` and `space` are those of the file, `at` is the address of `bucket`, and `block` has the room of a block. No memory
/// is taken. After `Failed` header, table and bucket in memory may be other ones than those of the file.
#[tactic(auto, using(gd_vault::proofs::Writes::writes))]
pub fn shrink<V: Vault>(
    vault: &mut V,
    f: FileId,
    header: &mut Header,
    space: &mut Space,
    block: &mut [u8],
    at: u64,
    bucket: &mut Bucket,
    capacity: u32,
) -> Result<(), Failed>
    requires file { HasFile (V.view_of vault.old) f.0 }
    requires fit { AreFit header.old space.old.table (length block.old) }
    requires space { space.old.block ≡ header.old.block }
    requires open { AtFile (V.view_of vault.old) f.0 (IsOpenOn header.old space.old.table) }
    requires bucket { AtFile (V.view_of vault.old) f.0 (λ file. IsBucketAt file header.old at bucket.old) }
    requires elems { length bucket.old.slots ≡ header.old.elems }
    requires least { 2 ≤ capacity }
    requires most { capacity ≤ table_room header.old.magic header.old.block }
    requires near { header.old.next_block + 2 ^ 29 ≤ 2 ^ 46 }
    ensures recut { OnOk result (FileBecomes (V.view_of vault.old) (V.view_of vault.new) f.0 (IsRecut header.new space.new.table (recut_loses capacity header.old space.old.table.extents))) }
    ensures header { OnOk result (header.new ≡ record header.old { next_block = header.new.next_block; avail_size = capacity }) }
    ensures growth { header.new.next_block ≤ header.old.next_block + header.old.block }
    ensures few { OnOk result (length space.new.table.extents ≤ capacity) }
    ensures fit { AreFit header.new space.new.table (length block.new) }
    ensures space { space.new.block ≡ header.new.block }
    ensures there { HasFile (V.view_of vault.new) f.0 }
    ensures amount { WritesAtMost (3 * header.old.block) (V.view_of vault.old) (V.view_of vault.new) }
    ensures frame { OnlyWrites f.0 (V.view_of vault.old) (V.view_of vault.new) }
    ensures cause { HasCause (V.view_of vault.old).faults (V.view_of vault.new).faults result }
{
    match space.recut(vault, f, header, at, bucket, capacity) {
        Ok(()) => {}
        Err(_full_or_fault) => return Err(Failed),
    }
    write_bucket(vault, f, at, bucket, block)?;
    write_front(vault, f, header, space.table(), block)?;
    Ok(())
}

/// Makes the table have no more extents than a capacity, where it has more: as `shrink`. Else nothing changes.
#[tactic(auto, using(gd_vault::proofs::Writes::writes))]
pub(crate) fn make_fit<V: Vault>(
    vault: &mut V,
    f: FileId,
    header: &mut Header,
    space: &mut Space,
    block: &mut [u8],
    at: u64,
    bucket: &mut Bucket,
    capacity: u32,
) -> Result<(), Failed>
    requires file { HasFile (V.view_of vault.old) f.0 }
    requires fit { AreFit header.old space.old.table (length block.old) }
    requires space { space.old.block ≡ header.old.block }
    requires open { AtFile (V.view_of vault.old) f.0 (IsOpenOn header.old space.old.table) }
    requires bucket { AtFile (V.view_of vault.old) f.0 (λ file. IsBucketAt file header.old at bucket.old) }
    requires elems { length bucket.old.slots ≡ header.old.elems }
    requires least { 2 ≤ capacity }
    requires near { header.old.next_block + 2 ^ 29 ≤ 2 ^ 46 }
    ensures recut { OnOk result (FileBecomes (V.view_of vault.old) (V.view_of vault.new) f.0 (IsRecut header.new space.new.table (recut_loses capacity header.old space.old.table.extents))) }
    ensures header { OnOk result (header.new ≡ record header.old { next_block = header.new.next_block; avail_size = header.new.avail_size }) }
    ensures fitted { length space.old.table.extents ≤ capacity → (result ≡ Ok tt) × (header.new ≡ header.old) × (space.new.table ≡ space.old.table) × (V.view_of vault.new ≡ V.view_of vault.old) }
    ensures growth { header.new.next_block ≤ header.old.next_block + header.old.block }
    ensures few { OnOk result (length space.new.table.extents ≤ capacity) }
    ensures fit { AreFit header.new space.new.table (length block.new) }
    ensures space { space.new.block ≡ header.new.block }
    ensures there { HasFile (V.view_of vault.new) f.0 }
    ensures amount { WritesAtMost (3 * header.old.block) (V.view_of vault.old) (V.view_of vault.new) }
    ensures frame { OnlyWrites f.0 (V.view_of vault.old) (V.view_of vault.new) }
    ensures cause { HasCause (V.view_of vault.old).faults (V.view_of vault.new).faults result }
{
    if space.table().extents().len() <= capacity as usize {
        return Ok(());
    }
    shrink(vault, f, header, space, block, at, bucket, capacity)
}
