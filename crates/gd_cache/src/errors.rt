//! Why a bucket was not brought or written.

ghost use Rattle.std.specs.Prelude.{◌≡◌};
ghost use Rattle.gd_cache.specs.declared.errors.CacheError.TheVariants.{OutOfMemory as NoMemory, VaultFault};

use gd_base::{Failed, OutOfMemory};
use thiserror::Error;

/// Why a bucket was not brought or written.
#[derive(Clone, Copy, Debug, PartialEq, Eq, Error)]
pub enum CacheError {
    #[error("the vault failed")]
    VaultFault,
    /// The block at this address is no bucket, or the file ends before its end.
    #[error("no bucket at {0}")]
    BadBucket(u64),
    #[error("out of memory")]
    OutOfMemory,
}

impl From<Failed> for CacheError {
    ghost from_gives = { λ _ e. e ≡ VaultFault };

    fn from(_e: Failed) -> CacheError {
        CacheError::VaultFault
    }
}

impl From<OutOfMemory> for CacheError {
    ghost from_gives = { λ _ e. e ≡ NoMemory };

    fn from(_e: OutOfMemory) -> CacheError {
        CacheError::OutOfMemory
    }
}
