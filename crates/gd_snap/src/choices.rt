//! What is answered of two snapshots.

ghost use Rattle.std.specs.Prelude.{◌≡◌};
ghost use Rattle.gd_snap.specs.declared.choices.LatestError.TheVariants.{VaultFault};

use gd_base::{Failed, Which};

/// Which of two snapshots is the newer one.
#[derive(Clone, Copy, Debug, PartialEq, Eq)]
pub enum Choice {
    Even,
    Odd,
    /// Neither may be read.
    Bad,
    /// Numsyncs and stamps don't tell them apart.
    Same,
    /// Their numsyncs are neither equal nor next to one another.
    Suspicious,
}

/// Why none is chosen.
#[derive(Clone, Copy, Debug, PartialEq, Eq)]
pub enum LatestError {
    /// The name of this snapshot stands for no file.
    Absent(Which),
    VaultFault,
}

impl From<Failed> for LatestError {
    ghost from_gives = { λ _ e. e ≡ VaultFault };

    fn from(_e: Failed) -> LatestError {
        LatestError::VaultFault
    }
}
