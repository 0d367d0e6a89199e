//! What the buckets of a readable file hold.

ghost use Rattle.std.specs.Prelude.{◌≡◌, ◌+◌, ◌*◌, ◌<◌, ◌≤◌, ◌^◌, true, false, None, ◌++◌, length, map, IfOk, IfErr, IfSome};
ghost use Rattle.std.specs.List.{All, flat_map};
ghost use Rattle.gd_format.specs.First.{first_some};
ghost use Rattle.gd_format.specs.Headers.{IsHeader};
ghost use Rattle.gd_format.specs.Sound.{free_held, is_free_right, records_held};
ghost use Rattle.gd_verify.specs.Apart.{IsPlain};
ghost use Rattle.gd_readable.specs.Asks.{kept_of, bytes_in, is_there, Tells, IsCause, is_of_sound};
ghost use Rattle.gd_verify.specs.Known.{HasBucket, free_fault_at};

use crate::held::{push_free, push_records};
use gd_base::DbError;
use gd_format::{Header, Held};
use gd_readable::{Stopped, fill};
use gd_vault::{FileId, Vault};

// Reads the bucket at an address, puts its records last in one list and its free extents in another one. False where a
// free extent is not right.
#[tactic(auto, using(gd_readable::proofs::Headers::header_room))]
fn read_bucket<V: Vault>(
    vault: &mut V,
    f: FileId,
    header: &Header,
    at: u64,
    block: &mut [u8],
    records: &mut Vec<Held>,
    free: &mut Vec<Held>,
) -> Result<bool, Stopped>
    requires there { is_there (kept_of (V.view_of vault.old)) f.0 ≡ true }
    requires header { IsHeader header.now }
    requires size { length block.old ≡ header.now.block }
    requires plain_records { All IsPlain records.old.items }
    requires plain_free { All IsPlain free.old.items }
    ensures same { kept_of (V.view_of vault.new) ≡ kept_of (V.view_of vault.old) }
    ensures later { (V.view_of vault.old).faults ≤ (V.view_of vault.new).faults }
    ensures answered { IfOk result (λ _. (V.view_of vault.new).faults ≡ (V.view_of vault.old).faults) }
    ensures failed { IfErr result (λ e. IsCause e (V.view_of vault.old).faults (V.view_of vault.new).faults) }
    ensures plain_records { IfOk result (λ _. All IsPlain records.new.items) }
    ensures plain_free { IfOk result (λ _. All IsPlain free.new.items) }
    ensures right { IfOk result (λ b. Tells (bytes_in (kept_of (V.view_of vault.old)) f.0) (λ file. HasBucket file header.now at → b ≡ is_free_right file header.now at)) }
    ensures records { IfOk result (λ b. Tells (bytes_in (kept_of (V.view_of vault.old)) f.0) (λ file. HasBucket file header.now at → b ≡ true → records.new.items ≡ records.old.items ++ records_held file header.now at)) }
    ensures free { IfOk result (λ b. Tells (bytes_in (kept_of (V.view_of vault.old)) f.0) (λ file. HasBucket file header.now at → b ≡ true → free.new.items ≡ free.old.items ++ free_held file header.now at)) }
{
    if !fill(vault, f, at, block)? {
        return Ok(false);
    }
    let Ok(()) = push_records(block, header.elems, records) else {
        return Err(Stopped::NoMemory);
    };
    let Ok(right) = push_free(block, at, free) else {
        return Err(Stopped::NoMemory);
    };
    Ok(right)
}

/// The refusal of the free extents of the buckets at some addresses. Puts the records of the buckets last in one list,
/// and their free extents in another one.
#[tactic(auto, using(gd_readable::proofs::Asks::cause_later))]
pub fn buckets_refusal<V: Vault>(
    vault: &mut V,
    f: FileId,
    header: &Header,
    places: &[u64],
    block: &mut [u8],
    records: &mut Vec<Held>,
    free: &mut Vec<Held>,
) -> Result<Option<DbError>, Stopped>
    requires there { is_there (kept_of (V.view_of vault.old)) f.0 ≡ true }
    requires header { IsHeader header.now }
    requires size { length block.old ≡ header.now.block }
    requires plain_records { All IsPlain records.old.items }
    requires plain_free { All IsPlain free.old.items }
    ensures same { kept_of (V.view_of vault.new) ≡ kept_of (V.view_of vault.old) }
    ensures later { (V.view_of vault.old).faults ≤ (V.view_of vault.new).faults }
    ensures answered { IfOk result (λ _. (V.view_of vault.new).faults ≡ (V.view_of vault.old).faults) }
    ensures failed { IfErr result (λ e. IsCause e (V.view_of vault.old).faults (V.view_of vault.new).faults) }
    ensures plain_records { IfOk result (λ _. All IsPlain records.new.items) }
    ensures plain_free { IfOk result (λ _. All IsPlain free.new.items) }
    ensures kind { IfOk result (λ r. IfSome r (λ e. is_of_sound e ≡ true)) }
    ensures refusal { IfOk result (λ r. Tells (bytes_in (kept_of (V.view_of vault.old)) f.0) (λ file. All (HasBucket file header.now) places.now → r ≡ first_some (map (free_fault_at file header.now) places.now))) }
    ensures records { IfOk result (λ r. Tells (bytes_in (kept_of (V.view_of vault.old)) f.0) (λ file. All (HasBucket file header.now) places.now → r ≡ None → records.new.items ≡ records.old.items ++ flat_map (records_held file header.now) places.now)) }
    ensures free { IfOk result (λ r. Tells (bytes_in (kept_of (V.view_of vault.old)) f.0) (λ file. All (HasBucket file header.now) places.now → r ≡ None → free.new.items ≡ free.old.items ++ flat_map (free_held file header.now) places.now)) }
{
    for at in places {
        if !read_bucket(vault, f, header, *at, block, records, free)? {
            return Ok(Some(DbError::BadAvail(*at)));
        }
    }
    Ok(None)
}
