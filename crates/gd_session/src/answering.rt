//! Requests to a database, which is opened first where none was opened yet.

ghost use Rattle.std.specs.Prelude.{◌≡◌, ◌≤◌, ℕ, false, List, Option, OnOk, IfOk, IfErr};
ghost use Rattle.gd_vault.specs.Frame.{Within};
ghost use Rattle.gd_readable.specs.Asks.{Counts};
ghost use Rattle.gd_session.specs.Calls.{Answers, AnyFile, AnyName, IsReady, is_fresh, scene, words_reply};
ghost use Rattle.gd_session.specs.Counted.{OutCounts, RequestCounts, VaultCounts};
ghost use Rattle.gd_session.specs.Due.{Causes, changing, content_due, key_due, pair_due, phase_due, write_due};
ghost use Rattle.gd_session.specs.Openings.{First, IsOpeningCause};
ghost use Rattle.gd_session.specs.Requests.{IsProperRequest, keyed_due, keyed_kind, keyed_request, own_due, request_kind, request_row};
ghost use Rattle.gd_session.specs.Rows.{Needs, Stores, ToWrite, WithContent, WithKey, WithPair};
ghost use Rattle.gd_session.specs.State.{Text, seen};

use crate::Reply;
use crate::opening::open_named;
use crate::phase::Phase;
use crate::request::{Keyed, Request};
use crate::session::Session;
use gd_base::{Datum, DbError, Sink};
use gd_store::How;
use gd_types::{EncodeError, Words, encode};
use gd_vault::Vault;

// Why words were not encoded, as a reply.
fn refused_words(error: EncodeError) -> Reply
    ensures { result ≡ words_reply error }
{
    match error {
        EncodeError::Typed(error) => Reply::Typed(error),
        EncodeError::OutOfMemory => Reply::Refused(DbError::OutOfMemory),
    }
}

impl Session {
    // Answers a request, where a database was opened before.
    fn answer_open<V: Vault, O: Sink>(
        &mut self,
        request: &Request,
        vault: &mut V,
        out: &mut O,
    ) -> Reply
        requires ready { IsReady (V.view_of vault.old) self.old }
        requires opened { is_fresh self.old.phase ≡ false }
        requires proper { IsProperRequest request.now }
        ensures ready { IsReady (V.view_of vault.new) self.new }
        ensures grows { Within AnyFile AnyName (V.view_of vault.old) (V.view_of vault.new) }
        ensures later { O.fault_count out.old ≤ O.fault_count out.new }
        ensures kept { O.kept out.old out.new }
        ensures answer { Answers (Needs (request_row request.now)) (scene self.old (V.view_of vault.old) (O.written out.old) (O.fault_count out.old)) (scene self.new (V.view_of vault.new) (O.written out.new) (O.fault_count out.new)) result }
        ensures cause { Causes (phase_due (own_due request.now) (seen self.old).phase) (request_kind request.now) (scene self.old (V.view_of vault.old) (O.written out.old) (O.fault_count out.old)) (scene self.new (V.view_of vault.new) (O.written out.new) (O.fault_count out.new)) result }
        ensures counted { RequestCounts request.now result (V.view_of vault.old).faults (V.view_of vault.new).faults }
        ensures sink { OutCounts result (O.fault_count out.old) (O.fault_count out.new) }
    {
        match request {
            Request::Count => self.count(vault, out),
            Request::Fetch(key) => self.fetch(key.as_slice(), vault, out),
            Request::First => self.first(vault, out),
            Request::Next(after) => match after {
                Some(key) => self.next(key.as_slice(), vault, out),
                None => self.next_last(vault, out),
            },
            Request::List => self.list(vault, out),
            Request::Store(how, key, content) => {
                self.store(key.as_slice(), content.as_slice(), *how, vault)
            }
            Request::Delete(key) => self.delete(key.as_slice(), vault),
            Request::Fill(start, count) => self.fill(*start, *count, vault, out),
        }
    }

    // Opens the database of the name last used, where none was opened yet.
    fn open_first<V: Vault>(&mut self, vault: &mut V) -> Result<(), DbError>
        requires ready { IsReady (V.view_of vault.old) self.old }
        ensures ready { IsReady (V.view_of vault.new) self.new }
        ensures opened { OnOk result (is_fresh self.new.phase ≡ false) }
        ensures first { First self.old self.new result (V.view_of vault.old) (V.view_of vault.new) }
        ensures grows { Within AnyFile AnyName (V.view_of vault.old) (V.view_of vault.new) }
        ensures cause { IfErr result (λ e. IsOpeningCause e (V.view_of vault.old).faults (V.view_of vault.new).faults) }
        ensures answered { IfOk result (λ _. (V.view_of vault.new).faults ≡ (V.view_of vault.old).faults) }
        ensures counted { IfErr result (λ e. Counts e (V.view_of vault.old).faults (V.view_of vault.new).faults) }
    {
        match self.phase {
            Phase::Fresh => {
                let store = open_named(self.alloc, &self.settings, vault)?;
                self.phase = Phase::Open(store);
                Ok(())
            }
            Phase::Open(_) | Phase::Shut => Ok(()),
        }
    }

    /// Answers a request, and opens the database first where none was opened yet.
    pub(crate) fn answer<V: Vault, O: Sink>(
        &mut self,
        request: &Request,
        vault: &mut V,
        out: &mut O,
    ) -> Reply
        requires ready { IsReady (V.view_of vault.old) self.old }
        requires proper { IsProperRequest request.now }
        ensures ready { IsReady (V.view_of vault.new) self.new }
        ensures grows { Within AnyFile AnyName (V.view_of vault.old) (V.view_of vault.new) }
        ensures later { O.fault_count out.old ≤ O.fault_count out.new }
        ensures kept { O.kept out.old out.new }
        ensures answer { Answers (Needs (request_row request.now)) (scene self.old (V.view_of vault.old) (O.written out.old) (O.fault_count out.old)) (scene self.new (V.view_of vault.new) (O.written out.new) (O.fault_count out.new)) result }
        ensures cause { Causes (phase_due (own_due request.now) (seen self.old).phase) (request_kind request.now) (scene self.old (V.view_of vault.old) (O.written out.old) (O.fault_count out.old)) (scene self.new (V.view_of vault.new) (O.written out.new) (O.fault_count out.new)) result }
        ensures counted { RequestCounts request.now result (V.view_of vault.old).faults (V.view_of vault.new).faults }
        ensures sink { OutCounts result (O.fault_count out.old) (O.fault_count out.new) }
    {
        match self.open_first(vault) {
            Ok(()) => self.answer_open(request, vault, out),
            Err(error) => Reply::Refused(error),
        }
    }

    /// Answers a command with a key.
    pub(crate) fn answer_key<V: Vault, O: Sink>(
        &mut self,
        keyed: Keyed,
        words: &Words,
        vault: &mut V,
        out: &mut O,
    ) -> Reply
        requires ready { IsReady (V.view_of vault.old) self.old }
        ensures ready { IsReady (V.view_of vault.new) self.new }
        ensures grows { Within AnyFile AnyName (V.view_of vault.old) (V.view_of vault.new) }
        ensures later { O.fault_count out.old ≤ O.fault_count out.new }
        ensures kept { O.kept out.old out.new }
        ensures answer { Answers (WithKey words.now (λ k. Needs (request_row (keyed_request keyed k)))) (scene self.old (V.view_of vault.old) (O.written out.old) (O.fault_count out.old)) (scene self.new (V.view_of vault.new) (O.written out.new) (O.fault_count out.new)) result }
        ensures cause { Causes (key_due words.now (keyed_due keyed) (seen self.old)) (keyed_kind keyed) (scene self.old (V.view_of vault.old) (O.written out.old) (O.fault_count out.old)) (scene self.new (V.view_of vault.new) (O.written out.new) (O.fault_count out.new)) result }
        ensures counted { VaultCounts result (V.view_of vault.old).faults (V.view_of vault.new).faults }
        ensures sink { OutCounts result (O.fault_count out.old) (O.fault_count out.new) }
    {
        match encode(self.alloc, &self.key_form, words) {
            Ok(key) => self.answer(&keyed.request(key), vault, out),
            Err(error) => refused_words(error),
        }
    }

    // Answers `store` and `insert`, where the key is encoded.
    fn answer_content<V: Vault, O: Sink>(
        &mut self,
        how: How,
        key: Datum,
        words: &Words,
        vault: &mut V,
        out: &mut O,
    ) -> Reply
        requires ready { IsReady (V.view_of vault.old) self.old }
        ensures ready { IsReady (V.view_of vault.new) self.new }
        ensures grows { Within AnyFile AnyName (V.view_of vault.old) (V.view_of vault.new) }
        ensures later { O.fault_count out.old ≤ O.fault_count out.new }
        ensures kept { O.kept out.old out.new }
        ensures answer { Answers (WithContent words.now (λ v. Needs (ToWrite (Stores how key v)))) (scene self.old (V.view_of vault.old) (O.written out.old) (O.fault_count out.old)) (scene self.new (V.view_of vault.new) (O.written out.new) (O.fault_count out.new)) result }
        ensures cause { Causes (content_due words.now write_due (seen self.old)) changing (scene self.old (V.view_of vault.old) (O.written out.old) (O.fault_count out.old)) (scene self.new (V.view_of vault.new) (O.written out.new) (O.fault_count out.new)) result }
        ensures counted { VaultCounts result (V.view_of vault.old).faults (V.view_of vault.new).faults }
        ensures sink { OutCounts result (O.fault_count out.old) (O.fault_count out.new) }
    {
        match encode(self.alloc, &self.content_form, words) {
            Ok(content) => self.answer(&Request::Store(how, key, content), vault, out),
            Err(error) => refused_words(error),
        }
    }

    /// Answers `store` and `insert`.
    pub(crate) fn answer_pair<V: Vault, O: Sink>(
        &mut self,
        how: How,
        key: &Words,
        content: &Words,
        vault: &mut V,
        out: &mut O,
    ) -> Reply
        requires ready { IsReady (V.view_of vault.old) self.old }
        ensures ready { IsReady (V.view_of vault.new) self.new }
        ensures grows { Within AnyFile AnyName (V.view_of vault.old) (V.view_of vault.new) }
        ensures later { O.fault_count out.old ≤ O.fault_count out.new }
        ensures kept { O.kept out.old out.new }
        ensures answer { Answers (WithPair key.now content.now (λ k v. Needs (ToWrite (Stores how k v)))) (scene self.old (V.view_of vault.old) (O.written out.old) (O.fault_count out.old)) (scene self.new (V.view_of vault.new) (O.written out.new) (O.fault_count out.new)) result }
        ensures cause { Causes (pair_due key.now content.now (seen self.old)) changing (scene self.old (V.view_of vault.old) (O.written out.old) (O.fault_count out.old)) (scene self.new (V.view_of vault.new) (O.written out.new) (O.fault_count out.new)) result }
        ensures counted { VaultCounts result (V.view_of vault.old).faults (V.view_of vault.new).faults }
        ensures sink { OutCounts result (O.fault_count out.old) (O.fault_count out.new) }
    {
        match encode(self.alloc, &self.key_form, key) {
            Ok(key) => self.answer_content(how, key, content, vault, out),
            Err(error) => refused_words(error),
        }
    }
}
