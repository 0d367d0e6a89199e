//! The command that fills a database.

ghost use Rattle.std.specs.Prelude.{◌≡◌, ◌≢◌, ◌≤◌, false, true, IfErr, IfOk, None};
ghost use Rattle.gd_vault.specs.Frame.{Within};
ghost use Rattle.gd_session.specs.Calls.{Answers, AnyFile, AnyName, IsReady, is_fresh, scene};
ghost use Rattle.gd_session.specs.Counted.{OutCounts, VaultCounts};
ghost use Rattle.gd_session.specs.Due.{Causes, counting, phase_due, write_due};
ghost use Rattle.gd_session.specs.Filling.{Adds, FillCause, FilledFrom};
ghost use Rattle.gd_session.specs.Rows.{Fills, Needs, ToWrite};
ghost use Rattle.gd_session.specs.State.{seen};

use crate::Reply;
use crate::counts::Counts;
use crate::numbered::{next_number, number_content, number_key};
use crate::phase::Phase;
use crate::printing::say_counts;
use crate::session::Session;
use gd_base::{DbError, Sink};
use gd_store::{Access, How};
use gd_vault::Vault;

// Was an insertion refused because the key is there?
fn is_there(reply: Reply) -> bool
    ensures there { result ≡ true → reply ≡ Reply.Refused DbError.CannotReplace }
    ensures other { result ≡ false → reply ≢ Reply.Refused DbError.CannotReplace }
{
    matches!(reply, Reply::Refused(DbError::CannotReplace))
}

impl Session {
    // The refusal of a command that changes the database, by what is known of it.
    fn write_refusal(&self) -> Option<Reply>
        ensures { result ≡ phase_due write_due (seen self.now).phase }
    {
        match &self.phase {
            Phase::Fresh => None,
            Phase::Open(store) => {
                if store.is_broken() {
                    Some(Reply::Refused(DbError::NeedRecovery))
                } else if store.access() == Access::Reader {
                    Some(Reply::Refused(DbError::ReaderCant))
                } else {
                    None
                }
            }
            Phase::Shut => Some(Reply::Refused(DbError::NotOpen)),
        }
    }

    // Stores a pair, and answers whether it replaced another one, or else why it was not stored.
    fn put_pair<V: Vault>(
        &mut self,
        key: &[u8],
        content: &[u8],
        vault: &mut V,
    ) -> Result<bool, Reply>
        requires ready { IsReady (V.view_of vault.old) self.old }
        requires opened { is_fresh self.old.phase ≡ false }
        requires calm { phase_due write_due (seen self.old).phase ≡ None }
        ensures ready { IsReady (V.view_of vault.new) self.new }
        ensures opened { is_fresh self.new.phase ≡ false }
        ensures grows { Within AnyFile AnyName (V.view_of vault.old) (V.view_of vault.new) }
        ensures adds { Adds (key.now, content.now) self.old self.new (V.view_of vault.old) (V.view_of vault.new) result }
        ensures cause { IfErr result (λ reply. FillCause self.old self.new (V.view_of vault.old) (V.view_of vault.new) reply) }
        ensures calm { IfOk result (λ _. phase_due write_due (seen self.new).phase ≡ None) }
        ensures answered { IfOk result (λ _. (V.view_of vault.new).faults ≡ (V.view_of vault.old).faults) }
        ensures counted { IfErr result (λ reply. VaultCounts reply (V.view_of vault.old).faults (V.view_of vault.new).faults) }
    {
        let first = self.store(key, content, How::Insert, vault);
        if let Reply::Done = first {
            return Ok(false);
        }
        let there = is_there(first);
        if !there {
            return Err(first);
        }
        match self.store(key, content, How::Replace, vault) {
            Reply::Done => Ok(true),
            second => Err(second),
        }
    }

    // Stores the pairs of a fill, up to the first that is refused, and counts them.
    fn put_pairs<V: Vault>(
        &mut self,
        start: u64,
        count: u64,
        vault: &mut V,
    ) -> Result<Counts, Reply>
        requires ready { IsReady (V.view_of vault.old) self.old }
        requires opened { is_fresh self.old.phase ≡ false }
        requires calm { phase_due write_due (seen self.old).phase ≡ None }
        requires few { count ≤ 1000000 }
        ensures ready { IsReady (V.view_of vault.new) self.new }
        ensures grows { Within AnyFile AnyName (V.view_of vault.old) (V.view_of vault.new) }
        ensures filled { FilledFrom start count self.old self.new (V.view_of vault.old) (V.view_of vault.new) result }
        ensures cause { IfErr result (λ reply. FillCause self.old self.new (V.view_of vault.old) (V.view_of vault.new) reply) }
        ensures answered { IfOk result (λ _. (V.view_of vault.new).faults ≡ (V.view_of vault.old).faults) }
        ensures counted { IfErr result (λ reply. VaultCounts reply (V.view_of vault.old).faults (V.view_of vault.new).faults) }
    {
        let mut x = start;
        let mut counts = Counts {
            added: 0,
            replaced: 0,
            bytes: 0,
        };
        'pairs: for _i in 0..count {
            x = next_number(x);
            let key = number_key(x >> 33);
            let content = number_content(x >> 33);
            match self.put_pair(key.as_slice(), content.as_slice(), vault) {
                Ok(replaced) => counts.add(replaced, key.len() as u64 + content.len() as u64),
                Err(reply) => return Err(reply),
            }
        }
        Ok(counts)
    }

    /// Answers `fill`, where a database was opened before.
    pub(crate) fn fill<V: Vault, O: Sink>(
        &mut self,
        start: u64,
        count: u64,
        vault: &mut V,
        out: &mut O,
    ) -> Reply
        requires ready { IsReady (V.view_of vault.old) self.old }
        requires opened { is_fresh self.old.phase ≡ false }
        requires few { count ≤ 1000000 }
        ensures ready { IsReady (V.view_of vault.new) self.new }
        ensures grows { Within AnyFile AnyName (V.view_of vault.old) (V.view_of vault.new) }
        ensures later { O.fault_count out.old ≤ O.fault_count out.new }
        ensures kept { O.kept out.old out.new }
        ensures answer { Answers (Needs (ToWrite (Fills start count))) (scene self.old (V.view_of vault.old) (O.written out.old) (O.fault_count out.old)) (scene self.new (V.view_of vault.new) (O.written out.new) (O.fault_count out.new)) result }
        ensures cause { Causes (phase_due write_due (seen self.old).phase) counting (scene self.old (V.view_of vault.old) (O.written out.old) (O.fault_count out.old)) (scene self.new (V.view_of vault.new) (O.written out.new) (O.fault_count out.new)) result }
        ensures counted { VaultCounts result (V.view_of vault.old).faults (V.view_of vault.new).faults }
        ensures sink { OutCounts result (O.fault_count out.old) (O.fault_count out.new) }
    {
        if let Some(refusal) = self.write_refusal() {
            return refusal;
        }
        match self.put_pairs(start, count, vault) {
            Ok(counts) => say_counts(count, &counts, out),
            Err(reply) => reply,
        }
    }
}
