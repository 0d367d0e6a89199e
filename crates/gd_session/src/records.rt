//! Commands that print the record of a key.

ghost use Rattle.std.specs.Prelude.{◌≡◌, ◌≤◌, false, List, Option, None, Some, IfOk, IfErr};
ghost use Rattle.gd_vault.specs.Views.{OnlyAsks};
ghost use Rattle.gd_readable.specs.Asks.{Counts};
ghost use Rattle.gd_session.specs.Calls.{Answers, IsReady, is_fresh, scene};
ghost use Rattle.gd_session.specs.Counted.{OutCounts, VaultCounts};
ghost use Rattle.gd_session.specs.Due.{Causes, ask_due, phase_due, showing};
ghost use Rattle.gd_session.specs.Rows.{Asks, Needs, first_row, next_row};
ghost use Rattle.gd_session.specs.Showing.{Finds, IsNextAt};
ghost use Rattle.gd_session.specs.State.{State, seen};
ghost use Rattle.gd_session.specs.Texts.{Pair};
ghost use Rattle.gd_session.specs.Answers.{Ending};

use crate::Reply;
use crate::phase::Phase;
use crate::session::Session;
use crate::typed::say_pair;
use gd_base::{Datum, DbError, Sink};
use gd_vault::Vault;

impl Session {
    // The first key.
    fn first_key<V: Vault>(&mut self, vault: &mut V) -> Result<Datum, DbError>
        requires ready { IsReady (V.view_of vault.old) self.old }
        requires opened { is_fresh self.old.phase ≡ false }
        ensures same { self.new ≡ self.old }
        ensures asks { OnlyAsks (V.view_of vault.old) (V.view_of vault.new) }
        ensures finds { Finds first_row self.old (V.view_of vault.old) (V.view_of vault.new) result }
        ensures answered { IfOk result (λ _. (V.view_of vault.new).faults ≡ (V.view_of vault.old).faults) }
        ensures counted { IfErr result (λ e. Counts e (V.view_of vault.old).faults (V.view_of vault.new).faults) }
    {
        let Phase::Open(store) = &mut self.phase else {
            return Err(DbError::NotOpen);
        };
        store.first(vault)
    }

    // The key after another one.
    fn key_after<V: Vault>(&mut self, key: &[u8], vault: &mut V) -> Result<Datum, DbError>
        requires ready { IsReady (V.view_of vault.old) self.old }
        requires opened { is_fresh self.old.phase ≡ false }
        ensures same { self.new ≡ self.old }
        ensures asks { OnlyAsks (V.view_of vault.old) (V.view_of vault.new) }
        ensures finds { Finds (next_row (Some key.now)) self.old (V.view_of vault.old) (V.view_of vault.new) result }
        ensures answered { IfOk result (λ _. (V.view_of vault.new).faults ≡ (V.view_of vault.old).faults) }
        ensures counted { IfErr result (λ e. Counts e (V.view_of vault.old).faults (V.view_of vault.new).faults) }
    {
        let Phase::Open(store) = &mut self.phase else {
            return Err(DbError::NotOpen);
        };
        store.next(vault, key)
    }

    // The key after the one last printed.
    fn key_after_last<V: Vault>(&mut self, vault: &mut V) -> Result<Datum, DbError>
        requires ready { IsReady (V.view_of vault.old) self.old }
        requires opened { is_fresh self.old.phase ≡ false }
        ensures same { self.new ≡ self.old }
        ensures asks { OnlyAsks (V.view_of vault.old) (V.view_of vault.new) }
        ensures finds { Finds (next_row self.old.last) self.old (V.view_of vault.old) (V.view_of vault.new) result }
        ensures answered { IfOk result (λ _. (V.view_of vault.new).faults ≡ (V.view_of vault.old).faults) }
        ensures counted { IfErr result (λ e. Counts e (V.view_of vault.old).faults (V.view_of vault.new).faults) }
    {
        let Phase::Open(store) = &mut self.phase else {
            return Err(DbError::NotOpen);
        };
        let Some(last) = &self.last else {
            if store.is_broken() {
                return Err(DbError::NeedRecovery);
            }
            return Err(DbError::ItemNotFound);
        };
        store.next(vault, last.as_slice())
    }

    // Prints the record of a key that is there. The key is then the one last printed.
    fn show<V: Vault, O: Sink>(&mut self, key: Datum, vault: &mut V, out: &mut O) -> Reply
        requires ready { IsReady (V.view_of vault.old) self.old }
        requires opened { is_fresh self.old.phase ≡ false }
        ensures ready { IsReady (V.view_of vault.new) self.new }
        ensures asks { OnlyAsks (V.view_of vault.old) (V.view_of vault.new) }
        ensures later { O.fault_count out.old ≤ O.fault_count out.new }
        ensures kept { O.kept out.old out.new }
        ensures answer { (row : State → List Pair → Ending) → IsNextAt row self.old (V.view_of vault.old) key → Answers (Needs (Asks row)) (scene self.old (V.view_of vault.old) (O.written out.old) (O.fault_count out.old)) (scene self.new (V.view_of vault.new) (O.written out.new) (O.fault_count out.new)) result }
        ensures cause { Causes (phase_due ask_due (seen self.old).phase) showing (scene self.old (V.view_of vault.old) (O.written out.old) (O.fault_count out.old)) (scene self.new (V.view_of vault.new) (O.written out.new) (O.fault_count out.new)) result }
        ensures counted { VaultCounts result (V.view_of vault.old).faults (V.view_of vault.new).faults }
        ensures sink { OutCounts result (O.fault_count out.old) (O.fault_count out.new) }
    {
        let Phase::Open(store) = &mut self.phase else {
            return Reply::Refused(DbError::NotOpen);
        };
        let content = match store.fetch(vault, key.as_slice()) {
            Ok(content) => content,
            Err(error) => return Reply::Refused(error),
        };
        let reply = say_pair(
            &self.key_form,
            &self.content_form,
            key.as_slice(),
            content.as_slice(),
            self.settings.delim.as_slice(),
            out,
        );
        if let Reply::Done = reply {
            self.last = Some(key);
            return Reply::Done;
        }
        reply
    }

    /// Answers `first`, where a database was opened before.
    pub(crate) fn first<V: Vault, O: Sink>(&mut self, vault: &mut V, out: &mut O) -> Reply
        requires ready { IsReady (V.view_of vault.old) self.old }
        requires opened { is_fresh self.old.phase ≡ false }
        ensures ready { IsReady (V.view_of vault.new) self.new }
        ensures asks { OnlyAsks (V.view_of vault.old) (V.view_of vault.new) }
        ensures later { O.fault_count out.old ≤ O.fault_count out.new }
        ensures kept { O.kept out.old out.new }
        ensures answer { Answers (Needs (Asks first_row)) (scene self.old (V.view_of vault.old) (O.written out.old) (O.fault_count out.old)) (scene self.new (V.view_of vault.new) (O.written out.new) (O.fault_count out.new)) result }
        ensures cause { Causes (phase_due ask_due (seen self.old).phase) showing (scene self.old (V.view_of vault.old) (O.written out.old) (O.fault_count out.old)) (scene self.new (V.view_of vault.new) (O.written out.new) (O.fault_count out.new)) result }
        ensures counted { VaultCounts result (V.view_of vault.old).faults (V.view_of vault.new).faults }
        ensures sink { OutCounts result (O.fault_count out.old) (O.fault_count out.new) }
    {
        match self.first_key(vault) {
            Ok(key) => self.show(key, vault, out),
            Err(error) => Reply::Refused(error),
        }
    }

    /// Answers `next` after a key, where a database was opened before.
    pub(crate) fn next<V: Vault, O: Sink>(
        &mut self,
        key: &[u8],
        vault: &mut V,
        out: &mut O,
    ) -> Reply
        requires ready { IsReady (V.view_of vault.old) self.old }
        requires opened { is_fresh self.old.phase ≡ false }
        ensures ready { IsReady (V.view_of vault.new) self.new }
        ensures asks { OnlyAsks (V.view_of vault.old) (V.view_of vault.new) }
        ensures later { O.fault_count out.old ≤ O.fault_count out.new }
        ensures kept { O.kept out.old out.new }
        ensures answer { Answers (Needs (Asks (next_row (Some key.now)))) (scene self.old (V.view_of vault.old) (O.written out.old) (O.fault_count out.old)) (scene self.new (V.view_of vault.new) (O.written out.new) (O.fault_count out.new)) result }
        ensures cause { Causes (phase_due ask_due (seen self.old).phase) showing (scene self.old (V.view_of vault.old) (O.written out.old) (O.fault_count out.old)) (scene self.new (V.view_of vault.new) (O.written out.new) (O.fault_count out.new)) result }
        ensures counted { VaultCounts result (V.view_of vault.old).faults (V.view_of vault.new).faults }
        ensures sink { OutCounts result (O.fault_count out.old) (O.fault_count out.new) }
    {
        match self.key_after(key, vault) {
            Ok(key) => self.show(key, vault, out),
            Err(error) => Reply::Refused(error),
        }
    }

    /// Answers `next` after the key last printed, where a database was opened before.
    pub(crate) fn next_last<V: Vault, O: Sink>(&mut self, vault: &mut V, out: &mut O) -> Reply
        requires ready { IsReady (V.view_of vault.old) self.old }
        requires opened { is_fresh self.old.phase ≡ false }
        ensures ready { IsReady (V.view_of vault.new) self.new }
        ensures asks { OnlyAsks (V.view_of vault.old) (V.view_of vault.new) }
        ensures later { O.fault_count out.old ≤ O.fault_count out.new }
        ensures kept { O.kept out.old out.new }
        ensures answer { Answers (Needs (Asks (next_row self.old.last))) (scene self.old (V.view_of vault.old) (O.written out.old) (O.fault_count out.old)) (scene self.new (V.view_of vault.new) (O.written out.new) (O.fault_count out.new)) result }
        ensures cause { Causes (phase_due ask_due (seen self.old).phase) showing (scene self.old (V.view_of vault.old) (O.written out.old) (O.fault_count out.old)) (scene self.new (V.view_of vault.new) (O.written out.new) (O.fault_count out.new)) result }
        ensures counted { VaultCounts result (V.view_of vault.old).faults (V.view_of vault.new).faults }
        ensures sink { OutCounts result (O.fault_count out.old) (O.fault_count out.new) }
    {
        match self.key_after_last(vault) {
            Ok(key) => self.show(key, vault, out),
            Err(error) => Reply::Refused(error),
        }
    }
}
