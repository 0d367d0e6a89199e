//! The adapters over the host's streams, clock and files: the trusted edge of the programs.
//!
//! Each keeps its trait of `gd_base` or `gd_vault`, and that is proved. None tells anything of content: no contract can say
//! what the host gives or takes. So the proofs say of them that they are safe and return, that what they answer is in its
//! range (a count within the buffer, a write past 2^63 - 1 refused), and how their counts go:
//!
//! - a failed call raises its count of failures by one (up to the last value of a u64), and no other call raises it;
//! - a write that succeeds raises the count of bytes by its length, and a clone that of clones by one.
//!
//! That a failure is answered only where the host failed, or where no memory was found, and that the bytes are those of the
//! host's files and streams, is read and tested alone.
//!
//! A call of the host that a signal interrupts is made again, and a short read or write goes on. A closed standard stream
//! fails, and no file gets its number. What else [`HostVault`] promises of names, files and companions stands there.
#![tactic(auto)]

mod clock;
mod companion;
mod descriptors;
mod files;
mod held;
mod host;
mod pages;
mod paths;
mod sink;
mod source;
mod table;
mod vault;
mod words;

pub use clock::HostClock;
pub use sink::HostSink;
pub use source::HostSource;
pub use vault::HostVault;
pub use words::host_words;
