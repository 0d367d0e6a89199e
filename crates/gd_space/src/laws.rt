//! What follows of a call for the rest of a file, and for what is lost. The functions do nothing; their contracts are laws.

ghost use Rattle.gd_space.specs.SpaceLaws.{StaysApart, UsedIsKept, TakeLoses, GiveGains};

/// Where no byte was in two extents, so it is after a call, with what was taken in the place of what was given.
pub fn stays_apart()
    ensures { StaysApart }
{}

/// What is in use keeps its bytes.
pub fn used_is_kept()
    ensures { UsedIsKept }
{}

/// A `take` of n bytes raises what is lost by n to n + 32, as long as the n bytes are in no extent.
pub fn take_loses()
    ensures { TakeLoses }
{}

/// A `give` lowers what is lost by the size of the extent less 32 at least, where that was in no list.
pub fn give_gains()
    ensures { GiveGains }
{}
