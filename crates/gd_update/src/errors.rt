//! Why a write to an open file was refused.

ghost use Rattle.std.specs.Prelude.{◌≡◌};
ghost use Rattle.gd_update.specs.declared.errors.UpdateError.TheVariants.{VaultFault};
ghost use Rattle.gd_update.specs.Refusals.{error_of};

use gd_base::{DbError, Failed};

/// Why a change, a split or a doubling was refused.
#[derive(Clone, Copy, Debug, PartialEq, Eq)]
pub enum UpdateError {
    VaultFault,
    /// A block of free space is none, or lies too high. It has this address.
    BadAvail(u64),
    /// An entry of the directory is not there, or below 0. It has this index.
    BadDirEntry(u64),
}

impl From<Failed> for UpdateError {
    ghost from_gives = { λ _ e. e ≡ VaultFault };

    fn from(_e: Failed) -> UpdateError {
        UpdateError::VaultFault
    }
}

impl From<UpdateError> for DbError {
    ghost from_gives = { λ s e. e ≡ error_of s };

    fn from(refused: UpdateError) -> DbError {
        match refused {
            UpdateError::VaultFault => DbError::VaultFault,
            UpdateError::BadAvail(at) => DbError::BadAvail(at),
            UpdateError::BadDirEntry(index) => DbError::BadDirEntry(index),
        }
    }
}
