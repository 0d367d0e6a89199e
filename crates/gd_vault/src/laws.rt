//! Laws of what a vault has been, of what a crash may leave, and of what calls leave alone. No program calls these.

ghost use Rattle.gd_vault.specs.Laws.{AfterIsLeft, CallsAdd, FrameImages, FrameReads, FrameReflexive, FrameTransitive, PastStays, ReadsNow, WasIsLeft};
ghost use Rattle.gd_vault.specs.Since.{IdleLeavesAll, KeptNameIsLeft, NameIsOneSince, QuietIsKept, WrittenIsLeft};

/// What a vault was at a moment, and what a crash may leave of it, never changes.
pub fn past_stays()
    ensures { PastStays }
{}

/// A changing call only adds to the history.
pub fn calls_add()
    ensures { CallsAdd }
{}

/// What a vault reads is what it was at the present moment.
pub fn reads_now()
    ensures { ReadsNow }
{}

/// At each moment a crash may leave what the vault was; so what it reads now is an image of the present moment.
pub fn was_is_left()
    ensures { WasIsLeft }
{}

/// At the moment inside a call a crash may also leave what the vault is after the call.
pub fn after_is_left()
    ensures { AfterIsLeft }
{}

/// Nothing done lies in each frame.
pub fn frame_reflexive()
    ensures { FrameReflexive }
{}

/// Calls in a row lie in a frame in which each of them lies.
pub fn frame_transitive()
    ensures { FrameTransitive }
{}

/// At each moment from the start of a frame on, a crash leaves of all other files and names only what a crash at the
/// start may leave of them.
pub fn frame_images()
    ensures { FrameImages }
{}

/// At the end of a frame all other files and names read as at its start, and no file is gone.
pub fn frame_reads()
    ensures { FrameReads }
{}

/// A crash leaves a file as it reads, where no call met it since a sync of it that succeeded, or since it was made.
pub fn quiet_is_kept()
    ensures { QuietIsKept }
{}

/// Where a file was written since, but neither emptied nor cloned into, a crash leaves it no shorter than it was when it was
/// durable and no longer than it was since, with the bytes that no write met, its stamp, and a mode that it had since.
pub fn written_is_left()
    ensures { WrittenIsLeft }
{}

/// A name that was not changed since the names were synced stands for what it stands for now.
pub fn kept_name_is_left()
    ensures { KeptNameIsLeft }
{}

/// A name stands for what it stood for at some time since the names were synced.
pub fn name_is_one_since()
    ensures { NameIsOneSince }
{}

/// A failed call that touched nothing adds nothing to what a crash may leave.
pub fn idle_leaves_all()
    ensures { IdleLeavesAll }
{}
