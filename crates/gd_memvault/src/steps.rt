//! Changing calls with copies of their arguments.

use gd_base::Datum;
use gd_vault::Mode;

/// A changing call. Files are numbered by their ids.
#[derive(Debug, Drop)]
pub enum Step {
    Create(Datum, Mode),
    Write(u64, u64, Datum),
    Truncate(u64),
    CloneInto(u64, u64, u64),
    SetMode(u64, Mode),
    Sync(u64),
    SyncNames,
    Replace(Datum, Datum),
    Remove(Datum),
}
