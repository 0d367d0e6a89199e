//! Commands that ask the database.

ghost use Rattle.std.specs.Prelude.{◌≡◌, ◌≤◌, ℕ, false, None, Some, List, Option};
ghost use Rattle.gd_vault.specs.Views.{OnlyAsks};
ghost use Rattle.gd_session.specs.Calls.{Answers, IsReady, is_fresh, scene};
ghost use Rattle.gd_session.specs.Counted.{OutCounts, VaultCounts};
ghost use Rattle.gd_session.specs.Due.{Causes, ask_due, counting, phase_due, showing};
ghost use Rattle.gd_session.specs.Rows.{Asks, Needs, count_row, fetch_row, first_row, next_row};
ghost use Rattle.gd_session.specs.State.{seen};

use crate::Reply;
use crate::phase::Phase;
use crate::printing::say_number;
use crate::session::Session;
use crate::typed::{say_datum, say_pair};
use gd_base::{Datum, DbError, Sink};
use gd_vault::Vault;

impl Session {
    /// Answers `count`, where a database was opened before.
    pub(crate) fn count<V: Vault, O: Sink>(&mut self, vault: &mut V, out: &mut O) -> Reply
        requires ready { IsReady (V.view_of vault.old) self.old }
        requires opened { is_fresh self.old.phase ≡ false }
        ensures ready { IsReady (V.view_of vault.new) self.new }
        ensures same { self.new ≡ self.old }
        ensures asks { OnlyAsks (V.view_of vault.old) (V.view_of vault.new) }
        ensures later { O.fault_count out.old ≤ O.fault_count out.new }
        ensures kept { O.kept out.old out.new }
        ensures answer { Answers (Needs (Asks count_row)) (scene self.old (V.view_of vault.old) (O.written out.old) (O.fault_count out.old)) (scene self.new (V.view_of vault.new) (O.written out.new) (O.fault_count out.new)) result }
        ensures cause { Causes (phase_due ask_due (seen self.old).phase) counting (scene self.old (V.view_of vault.old) (O.written out.old) (O.fault_count out.old)) (scene self.new (V.view_of vault.new) (O.written out.new) (O.fault_count out.new)) result }
        ensures counted { VaultCounts result (V.view_of vault.old).faults (V.view_of vault.new).faults }
        ensures sink { OutCounts result (O.fault_count out.old) (O.fault_count out.new) }
    {
        let Phase::Open(store) = &mut self.phase else {
            return Reply::Refused(DbError::NotOpen);
        };
        match store.count(vault) {
            Ok(count) => say_number(count, out),
            Err(error) => Reply::Refused(error),
        }
    }

    /// Answers `fetch` of a key, where a database was opened before.
    pub(crate) fn fetch<V: Vault, O: Sink>(
        &mut self,
        key: &[u8],
        vault: &mut V,
        out: &mut O,
    ) -> Reply
        requires ready { IsReady (V.view_of vault.old) self.old }
        requires opened { is_fresh self.old.phase ≡ false }
        ensures ready { IsReady (V.view_of vault.new) self.new }
        ensures same { self.new ≡ self.old }
        ensures asks { OnlyAsks (V.view_of vault.old) (V.view_of vault.new) }
        ensures later { O.fault_count out.old ≤ O.fault_count out.new }
        ensures kept { O.kept out.old out.new }
        ensures answer { Answers (Needs (Asks (fetch_row key.now))) (scene self.old (V.view_of vault.old) (O.written out.old) (O.fault_count out.old)) (scene self.new (V.view_of vault.new) (O.written out.new) (O.fault_count out.new)) result }
        ensures cause { Causes (phase_due ask_due (seen self.old).phase) showing (scene self.old (V.view_of vault.old) (O.written out.old) (O.fault_count out.old)) (scene self.new (V.view_of vault.new) (O.written out.new) (O.fault_count out.new)) result }
        ensures counted { VaultCounts result (V.view_of vault.old).faults (V.view_of vault.new).faults }
        ensures sink { OutCounts result (O.fault_count out.old) (O.fault_count out.new) }
    {
        let Phase::Open(store) = &mut self.phase else {
            return Reply::Refused(DbError::NotOpen);
        };
        match store.fetch(vault, key) {
            Ok(content) => say_datum(
                &self.content_form,
                content.as_slice(),
                self.settings.delim.as_slice(),
                out,
            ),
            Err(error) => Reply::Refused(error),
        }
    }
}
