//! The check of a file that is opened to write.

ghost use Rattle.std.specs.Prelude.{◌≡◌, ◌+◌, ◌*◌, ◌<◌, ◌≤◌, ◌^◌, true, None, Some, [], ◌∷◌, ◌++◌, length, IfOk, IfErr, IfSome};
ghost use Rattle.std.specs.List.{All};
ghost use Rattle.gd_format.specs.HeaderFault.{dir_size_of, header_of, is_native};
ghost use Rattle.gd_format.specs.Headers.{IsHeader};
ghost use Rattle.gd_layout.specs.Fits.{FitsHeader};
ghost use Rattle.gd_format.specs.File.{front_of};
ghost use Rattle.gd_format.specs.Sound.{itself, sound_fault, space_fault};
ghost use Rattle.gd_verify.specs.Apart.{IsPlain};
ghost use Rattle.gd_vault.specs.Content.{File};
ghost use Rattle.gd_vault.specs.Views.{HasFile, IsAt, OnlyAsks};
ghost use Rattle.gd_readable.specs.Asks.{kept_of, bytes_in, is_there, Tells, IsCause, is_of_sound, IsAnswer, Counts};
ghost use Rattle.gd_verify.specs.Known.{IsAddress, IsReadBy};
ghost use Rattle.gd_verify.specs.Refused.{RefusesSound, extents_fault, fixed_held};

use crate::buckets::buckets_refusal;
use crate::directory::bucket_places;
use crate::free::blocks_refusal;
use crate::held::push_held;
use crate::meeting::meet_refusal;
use gd_base::DbError;
use gd_format::{Extent, Header, Held};
use gd_readable::{Stopped, file_len, readable};
use gd_vault::{FileId, Vault};
use std::alloc::Global;

// Puts an extent last that is named by its own address.
#[tactic(auto, using(crate::proofs::Lists::plain_more))]
fn push_itself(list: &mut Vec<Held>, at: u64, size: u32) -> Result<(), Stopped>
    requires some { 0 < size }
    requires ends { at + size < 2 ^ 64 }
    requires plain { All IsPlain list.old.items }
    ensures failed { IfErr result (λ e. e ≡ Stopped.NoMemory) }
    ensures last { IfOk result (λ _. list.new.items ≡ list.old.items ++ itself at size ∷ []) }
    ensures plain { IfOk result (λ _. All IsPlain list.new.items) }
{
    let extent = Extent { at, size };
    match push_held(list, Held { extent, by: at }) {
        Ok(()) => Ok(()),
        Err(_) => Err(Stopped::NoMemory),
    }
}

// Puts extents last.
#[tactic(auto, using(crate::proofs::Orders::plain_both))]
fn push_all(list: &mut Vec<Held>, more: &[Held]) -> Result<(), Stopped>
    requires plain { All IsPlain list.old.items }
    requires more { All IsPlain more.now }
    ensures failed { IfErr result (λ e. e ≡ Stopped.NoMemory) }
    ensures last { IfOk result (λ _. list.new.items ≡ list.old.items ++ more.now) }
    ensures plain { IfOk result (λ _. All IsPlain list.new.items) }
{
    match list.extend_from_slice(more) {
        Ok(()) => Ok(()),
        Err(_) => Err(Stopped::NoMemory),
    }
}

// The bytes of the directory.
#[tactic(auto, using(gd_readable::proofs::Runs::run_range))]
fn dir_size(header: &Header) -> u32
    requires { header.now.dir_bits ≤ 24 }
    ensures { result ≡ dir_size_of header.now.dir_bits }
{
    (8 * (1u64 << header.dir_bits)) as u32
}

// The header's block, the directory and the buckets.
#[tactic(auto, using(crate::proofs::Tables::header_block, crate::proofs::Orders::dir_some))]
fn fixed_extents(alloc: Global, header: &Header, places: &[u64]) -> Result<Vec<Held>, Stopped>
    requires header { IsHeader header.now }
    requires low { All IsAddress places.now }
    ensures failed { IfErr result (λ e. e ≡ Stopped.NoMemory) }
    ensures held { IfOk result (λ v. v.items ≡ fixed_held header.now places.now) }
    ensures plain { IfOk result (λ v. All IsPlain v.items) }
{
    let mut list = Vec::new(alloc);
    push_itself(&mut list, 0, header.block)?;
    push_itself(&mut list, header.dir, dir_size(header))?;
    for at in places {
        push_itself(&mut list, *at, header.block)?;
    }
    Ok(list)
}

// The refusal of the free extents of the buckets, and of all extents in their order, by those of the blocks of free space.
#[tactic(auto, using(gd_readable::proofs::Asks::cause_later))]
fn extents_refusal<V: Vault>(
    alloc: Global,
    vault: &mut V,
    f: FileId,
    header: &Header,
    space: &[Held],
) -> Result<Option<DbError>, Stopped>
    requires there { is_there (kept_of (V.view_of vault.old)) f.0 ≡ true }
    requires header { IsHeader header.now }
    requires plain { All IsPlain space.now }
    ensures same { kept_of (V.view_of vault.new) ≡ kept_of (V.view_of vault.old) }
    ensures later { (V.view_of vault.old).faults ≤ (V.view_of vault.new).faults }
    ensures answered { IfOk result (λ _. (V.view_of vault.new).faults ≡ (V.view_of vault.old).faults) }
    ensures failed { IfErr result (λ e. IsCause e (V.view_of vault.old).faults (V.view_of vault.new).faults) }
    ensures kind { IfOk result (λ r. IfSome r (λ e. is_of_sound e ≡ true)) }
    ensures refusal { IfOk result (λ r. Tells (bytes_in (kept_of (V.view_of vault.old)) f.0) (λ file. IsReadBy file header.now → r ≡ extents_fault file header.now space.now)) }
{
    let places = match bucket_places(alloc, vault, f, header)? {
        Ok(places) => places,
        Err(e) => return Ok(Some(e)),
    };
    let Ok(mut block) = vec![in alloc; 0u8; header.block as usize] else {
        return Err(Stopped::NoMemory);
    };
    let mut list = fixed_extents(alloc, header, &places)?;
    let mut free = Vec::new(alloc);
    let refusal = buckets_refusal(vault, f, header, &places, &mut block, &mut list, &mut free)?;
    if let Some(e) = refusal {
        return Ok(Some(e));
    }
    push_all(&mut list, space)?;
    push_all(&mut list, &free)?;
    match meet_refusal(alloc, header.next_block, &list) {
        Ok(refusal) => Ok(refusal),
        Err(_) => Err(Stopped::NoMemory),
    }
}

// The refusal of a readable file that is not sound.
#[tactic(auto, using(gd_readable::proofs::Asks::cause_later))]
fn space_refusal<V: Vault>(
    alloc: Global,
    vault: &mut V,
    f: FileId,
    header: &Header,
) -> Result<Option<DbError>, Stopped>
    requires there { is_there (kept_of (V.view_of vault.old)) f.0 ≡ true }
    requires header { IsHeader header.now }
    ensures same { kept_of (V.view_of vault.new) ≡ kept_of (V.view_of vault.old) }
    ensures later { (V.view_of vault.old).faults ≤ (V.view_of vault.new).faults }
    ensures answered { IfOk result (λ _. (V.view_of vault.new).faults ≡ (V.view_of vault.old).faults) }
    ensures failed { IfErr result (λ e. IsCause e (V.view_of vault.old).faults (V.view_of vault.new).faults) }
    ensures kind { IfOk result (λ r. IfSome r (λ e. is_of_sound e ≡ true)) }
    ensures refusal { IfOk result (λ r. Tells (bytes_in (kept_of (V.view_of vault.old)) f.0) (λ file. IsReadBy file header.now → r ≡ space_fault file header.now)) }
{
    let len = file_len(vault, f)?;
    if header.next_block < len {
        return Ok(Some(DbError::NeedRecovery));
    }
    let mut space = Vec::new(alloc);
    let refusal = blocks_refusal(alloc, vault, f, header, len, &mut space)?;
    if let Some(e) = refusal {
        return Ok(Some(e));
    }
    let refusal = extents_refusal(alloc, vault, f, header, &space)?;
    Ok(refusal)
}

/// The header of a sound file, or the first refusal of another one. The file is read block by block; what is held of it
/// are its extents, or of a stack whose blocks meet no more than about a quarter of the file's length of them.
///
/// Over a vault that doesn't tell what it holds, a read that gives fewer bytes than a check needs fails that check.
pub fn sound<V: Vault>(alloc: Global, vault: &mut V, f: FileId) -> Result<Header, DbError>
    requires { HasFile (V.view_of vault.old) f.0 }
    ensures asks { OnlyAsks (V.view_of vault.old) (V.view_of vault.new) }
    ensures header { IfOk result IsHeader }
    ensures fits { IfOk result FitsHeader }
    ensures native { IfOk result (λ h. is_native h.magic ≡ true) }
    ensures sound { IfOk result (λ h. IsAt (V.view_of vault.old) (λ c. (x : File) → c.files f.0 ≡ Some x → (sound_fault x.bytes ≡ None) × (h ≡ header_of (front_of x.bytes)))) }
    ensures refused { IfErr result (λ e. RefusesSound e f.0 (V.view_of vault.old) (V.view_of vault.new)) }
    ensures kind { IfErr result (λ e. IsAnswer is_of_sound e) }
    ensures answered { IfOk result (λ _. (V.view_of vault.new).faults ≡ (V.view_of vault.old).faults) }
    ensures counted { IfErr result (λ e. Counts e (V.view_of vault.old).faults (V.view_of vault.new).faults) }
{
    let header = match readable(alloc, vault, f) {
        Ok(header) => header,
        Err(e) => return Err(e),
    };
    let refusal = match space_refusal(alloc, vault, f, &header) {
        Ok(refusal) => refusal,
        Err(Stopped::Fault) => return Err(DbError::VaultFault),
        Err(Stopped::NoMemory) => return Err(DbError::OutOfMemory),
    };
    match refusal {
        Some(e) => Err(e),
        None => Ok(header),
    }
}
