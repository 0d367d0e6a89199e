//! The change of a file from one format to the other.

ghost use Rattle.std.specs.Prelude.{◌≡◌, ◌≢◌, ◌⊎◌, ◌+◌, ◌*◌, ◌≤◌, ◌^◌, true, length, Ok, Err, OnOk, IfErr};
ghost use Rattle.gd_base.specs.Causes.{Rose};
ghost use Rattle.gd_base.specs.declared.errors.DbError.TheVariants.{FileFull, VaultFault};
ghost use Rattle.gd_space.specs.Effect.{WritesAtMost, recut_loses};
ghost use Rattle.gd_vault.specs.Streams.{OnlyWrites};
ghost use Rattle.gd_vault.specs.Views.{HasFile};
ghost use Rattle.gd_numsync.specs.Converted.{is_near_end, room_in, turned};
ghost use Rattle.gd_numsync.specs.Files.{AtFile, FileBecomes};
ghost use Rattle.gd_numsync.specs.Open.{AreFit, IsOpenOn};
ghost use Rattle.gd_numsync.specs.Recut.{IsBucketAt, IsRecut};

use crate::shrinking::make_fit;
use crate::turning::{room_in, turn};
use gd_base::DbError;
use gd_format::{Format, Header};
use gd_layout::Bucket;
use gd_space::Space;
use gd_vault::{FileId, Vault};

// Does the file stand so near to its greatest end that free space might not be kept?
fn is_near_end(next_block: u64) -> bool
    requires { next_block ≤ 2 ^ 46 }
    ensures { result ≡ is_near_end next_block }
{
    next_block + (1 << 29) > 1 << 46
}

/// Writes the header in the other format: its numsync starts at 0, and its table has the room of that format, for which
/// extents that are too many are pushed first. In the same format nothing changes.
///
/// `header` and `space` are those of the file, `at` is the address of `bucket`, which is any bucket of the file, and `block`
/// has the room of a block. No memory is taken. `FileFull` comes where the file stands so near to its greatest end that free
/// space might not be kept, before anything is written. After `VaultFault` header, table and bucket in memory may be other
/// ones than those of the file.
#[tactic(auto, using(gd_vault::proofs::Writes::writes))]
pub fn convert<V: Vault>(
    vault: &mut V,
    f: FileId,
    header: &mut Header,
    space: &mut Space,
    block: &mut [u8],
    at: u64,
    bucket: &mut Bucket,
    wanted: Format,
) -> Result<(), DbError>
    requires file { HasFile (V.view_of vault.old) f.0 }
    requires fit { AreFit header.old space.old.table (length block.old) }
    requires space { space.old.block ≡ header.old.block }
    requires open { AtFile (V.view_of vault.old) f.0 (IsOpenOn header.old space.old.table) }
    requires bucket { AtFile (V.view_of vault.old) f.0 (λ file. IsBucketAt file header.old at bucket.old) }
    requires elems { length bucket.old.slots ≡ header.old.elems }
    ensures same { header.old.format ≡ wanted → (result ≡ Ok tt) × (header.new ≡ header.old) × (space.new.table ≡ space.old.table) × (V.view_of vault.new ≡ V.view_of vault.old) }
    ensures far { header.old.format ≢ wanted → is_near_end header.old.next_block ≡ true → result ≡ Err FileFull }
    ensures full { IfErr result (λ e. e ≡ FileFull → (header.old.format ≢ wanted) × (is_near_end header.old.next_block ≡ true) × (header.new ≡ header.old) × (space.new.table ≡ space.old.table) × (V.view_of vault.new ≡ V.view_of vault.old)) }
    ensures error { IfErr result (λ e. (e ≡ FileFull) ⊎ ((e ≡ VaultFault) × Rose (V.view_of vault.old).faults (V.view_of vault.new).faults)) }
    ensures converted { OnOk result (FileBecomes (V.view_of vault.old) (V.view_of vault.new) f.0 (IsRecut header.new space.new.table (recut_loses (room_in wanted header.old) header.old space.old.table.extents))) }
    ensures header { OnOk result (header.old.format ≢ wanted → header.new ≡ record (turned header.old wanted) { next_block = header.new.next_block }) }
    ensures growth { header.new.next_block ≤ header.old.next_block + header.old.block }
    ensures answered { OnOk result ((V.view_of vault.new).faults ≡ (V.view_of vault.old).faults) }
    ensures fit { AreFit header.new space.new.table (length block.new) }
    ensures space { space.new.block ≡ header.new.block }
    ensures there { HasFile (V.view_of vault.new) f.0 }
    ensures amount { WritesAtMost (4 * header.old.block) (V.view_of vault.old) (V.view_of vault.new) }
    ensures frame { OnlyWrites f.0 (V.view_of vault.old) (V.view_of vault.new) }
{
    if header.format == wanted {
        return Ok(());
    }
    if is_near_end(header.next_block) {
        return Err(DbError::FileFull);
    }
    let capacity = room_in(wanted, header.block);
    match make_fit(vault, f, header, space, block, at, bucket, capacity) {
        Ok(()) => {}
        Err(_fault) => return Err(DbError::VaultFault),
    }
    match turn(vault, f, header, space.table(), block, wanted) {
        Ok(()) => Ok(()),
        Err(_fault) => Err(DbError::VaultFault),
    }
}
