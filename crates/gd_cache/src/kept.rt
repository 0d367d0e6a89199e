//! The uses of a list of buckets that is bounded.

ghost use Rattle.std.specs.Prelude.{◌≡◌, ◌<◌, ℕ, Some, None, true, false, OnOk, OnErr, IsOk, IsSome};
ghost use Rattle.std.specs.NonZero.{non_zero_usize_get};
ghost use Rattle.gd_cache.specs.Cached.{KeepsOthers, addresses, held, is_listed, used, without};

use gd_base::OutOfMemory;
use gd_layout::Bucket;
use lru::LruCache;
use std::num::NonZeroUsize;

pub fn size_of_list(size: u32) -> NonZeroUsize
    requires { 0 < size }
    ensures { non_zero_usize_get result ≡ size }
{
    NonZeroUsize::new(size as usize).unwrap_or(NonZeroUsize::MIN)
}

/// Uses the bucket of an address, and answers whether it is there.
pub fn touch(kept: &mut LruCache<u64, Bucket>, at: u64) -> bool
    ensures there { result ≡ is_listed at (addresses kept.old.entries) }
    ensures list { result ≡ true → addresses kept.new.entries ≡ used (addresses kept.old.entries) at kept.old.cap }
    ensures same { (a : ℕ) → held kept.new.entries a ≡ held kept.old.entries a }
    ensures present { result ≡ true → IsSome (held kept.new.entries at) }
    ensures absent { result ≡ false → kept.new ≡ kept.old }
    ensures size { kept.new.cap ≡ kept.old.cap }
{
    let _count = kept.len();
    kept.promote(&at)
}

/// Keeps a bucket as used. Takes no memory where one is there.
pub fn keep(kept: &mut LruCache<u64, Bucket>, at: u64, bucket: Bucket) -> Result<(), OutOfMemory>
    ensures list { OnOk result (addresses kept.new.entries ≡ used (addresses kept.old.entries) at kept.old.cap) }
    ensures put { OnOk result (held kept.new.entries at ≡ Some bucket) }
    ensures others { KeepsOthers at kept.old.entries kept.new.entries }
    ensures err { OnErr result (kept.new ≡ kept.old) }
    ensures there { is_listed at (addresses kept.old.entries) ≡ true → IsOk result }
    ensures size { kept.new.cap ≡ kept.old.cap }
{
    let _count = kept.len();
    match kept.put(at, bucket) {
        Ok(_) => Ok(()),
        Err(_) => Err(OutOfMemory),
    }
}

/// Forgets the bucket of an address.
pub fn forget(kept: &mut LruCache<u64, Bucket>, at: u64)
    ensures list { addresses kept.new.entries ≡ without at (addresses kept.old.entries) }
    ensures gone { held kept.new.entries at ≡ None }
    ensures others { KeepsOthers at kept.old.entries kept.new.entries }
    ensures size { kept.new.cap ≡ kept.old.cap }
{
    let _count = kept.len();
    let _gone = kept.pop(&at);
}
