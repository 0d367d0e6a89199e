//! The command that prints all records.

ghost use Rattle.std.specs.Prelude.{◌≡◌, ◌≤◌, ◌<◌, ◌^◌, false};
ghost use Rattle.gd_readable.specs.Standing.{StandsIn, left_of, slots_of_walk};
ghost use Rattle.gd_store.specs.Opened.{OnFile};
ghost use Rattle.gd_vault.specs.Views.{HasFile, OnlyAsks};
ghost use Rattle.gd_session.specs.Calls.{Answers, IsReady, is_fresh, scene};
ghost use Rattle.gd_session.specs.Counted.{ListCounts, OutCounts, VaultCounts};
ghost use Rattle.gd_session.specs.Due.{Causes, ask_due, phase_due, showing};
ghost use Rattle.gd_session.specs.Listing.{IsListCause, Listed, Lists};
ghost use Rattle.gd_session.specs.Rows.{Needs};
ghost use Rattle.gd_session.specs.Rows as rows;
ghost use Rattle.gd_session.specs.State.{seen};

use crate::Reply;
use crate::phase::Phase;
use crate::session::Session;
use crate::typed::{misfit, put_pair_line};
use gd_base::{DbError, Page, Sink, flush};
use gd_readable::Walk;
use gd_vault::Vault;

impl Session {
    // Puts the lines of the records that a walk has still to give behind what waits, up to the first record that a definition
    // refuses.
    fn put_lines<V: Vault, O: Sink>(
        &self,
        page: &mut Page,
        walk: &mut Walk,
        vault: &mut V,
        out: &mut O,
    ) -> Reply
        requires there { HasFile (V.view_of vault.old) walk.old.f }
        requires stands { OnFile (V.view_of vault.old) walk.old.f (λ file. StandsIn file walk.old) }
        requires few { slots_of_walk walk.old < 2 ^ 64 }
        ensures asks { OnlyAsks (V.view_of vault.old) (V.view_of vault.new) }
        ensures later { O.fault_count out.old ≤ O.fault_count out.new }
        ensures kept { O.kept out.old out.new }
        ensures lines { OnFile (V.view_of vault.old) walk.old.f (λ file. Lists (seen self.now) (left_of file walk.old) result (O.written out.old) page.old.items (O.written out.new) page.new.items) }
        ensures cause { IsListCause result (V.view_of vault.old).faults (V.view_of vault.new).faults (O.fault_count out.old) (O.fault_count out.new) }
        ensures counted { VaultCounts result (V.view_of vault.old).faults (V.view_of vault.new).faults }
        ensures sink { OutCounts result (O.fault_count out.old) (O.fault_count out.new) }
    {
        'records: loop {
            let found = match walk.next(vault) {
                Ok(found) => found,
                Err(error) => return Reply::Refused(error),
            };
            let Some((key, content)) = found else {
                return Reply::Done;
            };
            if let Some(error) = misfit(
                &self.key_form,
                &self.content_form,
                key.as_slice(),
                content.as_slice(),
            ) {
                return Reply::Typed(error);
            }
            let put = put_pair_line(
                page,
                &self.key_form,
                &self.content_form,
                key.as_slice(),
                content.as_slice(),
                self.settings.delim.as_slice(),
                out,
            );
            match put {
                Ok(()) => {}
                Err(_) => return Reply::SinkFault,
            }
        }
    }

    // Prints the records that a walk has still to give.
    fn list_walk<V: Vault, O: Sink>(&self, walk: &mut Walk, vault: &mut V, out: &mut O) -> Reply
        requires there { HasFile (V.view_of vault.old) walk.old.f }
        requires stands { OnFile (V.view_of vault.old) walk.old.f (λ file. StandsIn file walk.old) }
        requires few { slots_of_walk walk.old < 2 ^ 64 }
        ensures asks { OnlyAsks (V.view_of vault.old) (V.view_of vault.new) }
        ensures later { O.fault_count out.old ≤ O.fault_count out.new }
        ensures kept { O.kept out.old out.new }
        ensures listed { OnFile (V.view_of vault.old) walk.old.f (λ file. Listed (seen self.now) (left_of file walk.old) result (O.written out.old) (O.written out.new)) }
        ensures cause { IsListCause result (V.view_of vault.old).faults (V.view_of vault.new).faults (O.fault_count out.old) (O.fault_count out.new) }
        ensures counted { ListCounts result (V.view_of vault.old).faults (V.view_of vault.new).faults }
        ensures sink { OutCounts result (O.fault_count out.old) (O.fault_count out.new) }
    {
        let mut page = Page::new();
        let reply = self.put_lines(&mut page, walk, vault, out);
        if let Reply::SinkFault = reply {
            return Reply::SinkFault;
        }
        if page.is_empty() {
            return reply;
        }
        match flush(&mut page, out) {
            Ok(()) => reply,
            Err(_) => Reply::SinkFault,
        }
    }

    /// Answers `list`, where a database was opened before.
    pub(crate) fn list<V: Vault, O: Sink>(&mut self, vault: &mut V, out: &mut O) -> Reply
        requires ready { IsReady (V.view_of vault.old) self.old }
        requires opened { is_fresh self.old.phase ≡ false }
        ensures same { self.new ≡ self.old }
        ensures ready { IsReady (V.view_of vault.new) self.new }
        ensures asks { OnlyAsks (V.view_of vault.old) (V.view_of vault.new) }
        ensures later { O.fault_count out.old ≤ O.fault_count out.new }
        ensures kept { O.kept out.old out.new }
        ensures answer { Answers (Needs rows.Lists) (scene self.old (V.view_of vault.old) (O.written out.old) (O.fault_count out.old)) (scene self.new (V.view_of vault.new) (O.written out.new) (O.fault_count out.new)) result }
        ensures cause { Causes (phase_due ask_due (seen self.old).phase) showing (scene self.old (V.view_of vault.old) (O.written out.old) (O.fault_count out.old)) (scene self.new (V.view_of vault.new) (O.written out.new) (O.fault_count out.new)) result }
        ensures counted { ListCounts result (V.view_of vault.old).faults (V.view_of vault.new).faults }
        ensures sink { OutCounts result (O.fault_count out.old) (O.fault_count out.new) }
    {
        let Phase::Open(store) = &self.phase else {
            return Reply::Refused(DbError::NotOpen);
        };
        if store.is_broken() {
            return Reply::Refused(DbError::NeedRecovery);
        }
        let mut walk = match Walk::start(self.alloc, vault, store.file(), store.header()) {
            Ok(walk) => walk,
            Err(error) => return Reply::Refused(error),
        };
        self.list_walk(&mut walk, vault, out)
    }
}
