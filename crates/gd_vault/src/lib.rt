//! Files with names, modes and stamps, which a crash may leave at any moment in one of several ways.
#![tactic(auto)]

mod laws;
mod vault_sink;
mod vault_source;
mod vaults;

pub use laws::{
    after_is_left, calls_add, frame_images, frame_reads, frame_reflexive, frame_transitive,
    idle_leaves_all, kept_name_is_left, name_is_one_since, past_stays, quiet_is_kept, reads_now,
    was_is_left, written_is_left,
};
pub use vault_sink::VaultSink;
pub use vault_source::VaultSource;
pub use vaults::{CreateError, FileId, Mode, Vault};
