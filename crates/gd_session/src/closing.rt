//! Closing a database.

ghost use Rattle.std.specs.Prelude.{◌≡◌, ◌⊎◌, ◌≤◌, ℕ, None, Option, IfOk, IfErr};
ghost use Rattle.gd_base.specs.Causes.{Rose};
ghost use Rattle.gd_base.specs.declared.errors.DbError.TheVariants.{VaultFault};
ghost use Rattle.gd_readable.specs.Asks.{Counts};
ghost use Rattle.gd_session.specs.declared.reply.Reply.TheVariants.{Done, Refused};
ghost use Rattle.gd_vault.specs.Frame.{Within};
ghost use Rattle.gd_session.specs.Calls.{Answers, AnyFile, AnyName, IsReady, scene};
ghost use Rattle.gd_session.specs.Closing.{CanClose, ClosesSynced, IsClosing, SyncsOpen};
ghost use Rattle.gd_session.specs.Counted.{VaultCounts};
ghost use Rattle.gd_session.specs.Due.{Causes, moving};
ghost use Rattle.gd_session.specs.Moves as moves;
ghost use Rattle.gd_session.specs.Rows.{Closes};
ghost use Rattle.gd_session.specs.State.{Text, seen};

use crate::Reply;
use crate::phase::Phase;
use crate::session::Session;
use gd_base::DbError;
use gd_vault::Vault;
use std::mem;

/// Closes an open database.
pub(crate) fn close_phase<V: Vault>(phase: Phase, vault: &mut V) -> Result<(), DbError>
    requires { CanClose (V.view_of vault.old) phase }
    ensures closing { IsClosing phase result (V.view_of vault.old) (V.view_of vault.new) }
    ensures synced { SyncsOpen phase result (V.view_of vault.old) (V.view_of vault.new) }
    ensures grows { Within AnyFile AnyName (V.view_of vault.old) (V.view_of vault.new) }
    ensures answered { IfOk result (λ _. (V.view_of vault.new).faults ≡ (V.view_of vault.old).faults) }
    ensures counted { IfErr result (λ e. Counts e (V.view_of vault.old).faults (V.view_of vault.new).faults) }
{
    match phase {
        Phase::Open(store) => store.close_file(vault),
        Phase::Fresh | Phase::Shut => Ok(()),
    }
}

impl Session {
    /// Answers `close`.
    pub(crate) fn close<V: Vault>(&mut self, vault: &mut V) -> Reply
        requires ready { IsReady (V.view_of vault.old) self.old }
        ensures ready { IsReady (V.view_of vault.new) self.new }
        ensures grows { Within AnyFile AnyName (V.view_of vault.old) (V.view_of vault.new) }
        ensures answer { (out : Option Text) (failed : ℕ) → Answers Closes (scene self.old (V.view_of vault.old) out failed) (scene self.new (V.view_of vault.new) out failed) result }
        ensures cause { (out : Option Text) (failed : ℕ) → Causes None moving (scene self.old (V.view_of vault.old) out failed) (scene self.new (V.view_of vault.new) out failed) result }
        ensures fault { (result ≡ Done) ⊎ ((result ≡ Refused VaultFault) × Rose (V.view_of vault.old).faults (V.view_of vault.new).faults) }
        ensures synced { ClosesSynced self.old.phase result (V.view_of vault.old) (V.view_of vault.new) }
        ensures counted { VaultCounts result (V.view_of vault.old).faults (V.view_of vault.new).faults }
        ensures leaves { moves.Closes (seen self.old) result (seen self.new) }
    {
        let phase = mem::replace(&mut self.phase, Phase::Shut);
        self.last = None;
        match close_phase(phase, vault) {
            Ok(()) => Reply::Done,
            Err(error) => Reply::Refused(error),
        }
    }
}
