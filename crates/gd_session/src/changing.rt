//! Commands that change the map.

ghost use Rattle.std.specs.Prelude.{◌≡◌, ◌≢◌, ℕ, false, Option};
ghost use Rattle.gd_vault.specs.Frame.{NoName, Within};
ghost use Rattle.gd_session.specs.Calls.{Answers, IsReady, OpenFile, is_fresh, scene};
ghost use Rattle.gd_session.specs.Counted.{VaultCounts};
ghost use Rattle.gd_session.specs.Due.{Causes, moving, phase_due, write_due};
ghost use Rattle.gd_session.specs.Rows.{Deletes, Needs, Stores, ToWrite};
ghost use Rattle.gd_session.specs.State.{Text, seen};

use crate::Reply;
use crate::phase::Phase;
use crate::session::Session;
use gd_base::DbError;
use gd_store::How;
use gd_vault::Vault;

impl Session {
    /// Answers `store` or `insert` of a pair, where a database was opened before.
    pub(crate) fn store<V: Vault>(
        &mut self,
        key: &[u8],
        content: &[u8],
        how: How,
        vault: &mut V,
    ) -> Reply
        requires ready { IsReady (V.view_of vault.old) self.old }
        requires opened { is_fresh self.old.phase ≡ false }
        ensures ready { IsReady (V.view_of vault.new) self.new }
        ensures stays { result ≢ Reply.Refused DbError.VaultFault → seen self.new ≡ seen self.old }
        ensures rest { self.new ≡ record self.old { phase = self.new.phase } }
        ensures opened { is_fresh self.new.phase ≡ false }
        ensures frame { Within (OpenFile self.old.phase) NoName (V.view_of vault.old) (V.view_of vault.new) }
        ensures answer { (out : Option Text) (failed : ℕ) → Answers (Needs (ToWrite (Stores how key.now content.now))) (scene self.old (V.view_of vault.old) out failed) (scene self.new (V.view_of vault.new) out failed) result }
        ensures cause { (out : Option Text) (failed : ℕ) → Causes (phase_due write_due (seen self.old).phase) moving (scene self.old (V.view_of vault.old) out failed) (scene self.new (V.view_of vault.new) out failed) result }
        ensures counted { VaultCounts result (V.view_of vault.old).faults (V.view_of vault.new).faults }
    {
        let Phase::Open(store) = &mut self.phase else {
            return Reply::Refused(DbError::NotOpen);
        };
        match store.store(vault, key, content, how) {
            Ok(()) => Reply::Done,
            Err(refusal) => Reply::Refused(refusal),
        }
    }

    /// Answers `delete` of a key, where a database was opened before.
    pub(crate) fn delete<V: Vault>(&mut self, key: &[u8], vault: &mut V) -> Reply
        requires ready { IsReady (V.view_of vault.old) self.old }
        requires opened { is_fresh self.old.phase ≡ false }
        ensures ready { IsReady (V.view_of vault.new) self.new }
        ensures stays { result ≢ Reply.Refused DbError.VaultFault → seen self.new ≡ seen self.old }
        ensures rest { self.new ≡ record self.old { phase = self.new.phase } }
        ensures opened { is_fresh self.new.phase ≡ false }
        ensures frame { Within (OpenFile self.old.phase) NoName (V.view_of vault.old) (V.view_of vault.new) }
        ensures answer { (out : Option Text) (failed : ℕ) → Answers (Needs (ToWrite (Deletes key.now))) (scene self.old (V.view_of vault.old) out failed) (scene self.new (V.view_of vault.new) out failed) result }
        ensures cause { (out : Option Text) (failed : ℕ) → Causes (phase_due write_due (seen self.old).phase) moving (scene self.old (V.view_of vault.old) out failed) (scene self.new (V.view_of vault.new) out failed) result }
        ensures counted { VaultCounts result (V.view_of vault.old).faults (V.view_of vault.new).faults }
    {
        let Phase::Open(store) = &mut self.phase else {
            return Reply::Refused(DbError::NotOpen);
        };
        match store.delete(vault, key) {
            Ok(()) => Reply::Done,
            Err(error) => Reply::Refused(error),
        }
    }
}
