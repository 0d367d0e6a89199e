//! A session's beginning and end.

ghost use Rattle.std.specs.Prelude.{◌≡◌, ◌⊎◌, ◌≤◌, ℕ, false, None, IfOk, Option};
ghost use Rattle.gd_session.specs.Calls.{Answers, AnyFile, AnyName, IsReady, scene, string_form};
ghost use Rattle.gd_session.specs.Closing.{ClosesSynced};
ghost use Rattle.gd_session.specs.Counted.{VaultCounts};
ghost use Rattle.gd_session.specs.Due.{Causes, moving};
ghost use Rattle.gd_session.specs.Moves as moves;
ghost use Rattle.gd_session.specs.Rows.{Closes};
ghost use Rattle.gd_base.specs.Causes.{Rose};
ghost use Rattle.gd_base.specs.declared.errors.DbError.TheVariants.{VaultFault};
ghost use Rattle.gd_session.specs.declared.reply.Reply.TheVariants.{Done, Refused};
ghost use Rattle.gd_vault.specs.Frame.{Within};
ghost use Rattle.gd_session.specs.State.{Text, seen};
ghost use Rattle.gd_session.specs.declared.phase.Phase.TheVariants as phases;

use crate::Reply;
use crate::phase::Phase;
use crate::session::Session;
use crate::settings::Settings;
use gd_base::OutOfMemory;
use gd_types::{Definition, Member};
use gd_vault::Vault;
use std::alloc::Global;

/// The row of `string` among the types.
const STRING: u32 = 9;

// The definition of one text.
fn string_form(alloc: Global) -> Result<Definition, OutOfMemory>
    ensures { IfOk result (λ d. d ≡ string_form) }
{
    let mut form = Definition::new(alloc, false);
    match form.push(Member::Row(STRING)) {
        Ok(()) => Ok(form),
        Err(error) => Err(error),
    }
}

impl Session {
    /// A session in which no database was opened yet.
    pub fn new(alloc: Global, settings: Settings) -> Result<Session, OutOfMemory>
        requires block { settings.block ≤ 1048576 }
        requires least { 1 ≤ settings.cache }
        requires most { settings.cache ≤ 4096 }
        ensures { IfOk result (λ s. s ≡ record { phase = phases.Fresh; settings = settings; key_form = string_form; content_form = string_form; last = None }) }
    {
        let Ok(key_form) = string_form(alloc) else {
            return Err(OutOfMemory);
        };
        let Ok(content_form) = string_form(alloc) else {
            return Err(OutOfMemory);
        };
        Ok(Session {
            alloc,
            phase: Phase::Fresh,
            settings,
            key_form,
            content_form,
            last: None,
        })
    }

    /// Closes an open database at the end of a run.
    pub fn finish<V: Vault>(&mut self, vault: &mut V) -> Reply
        requires ready { IsReady (V.view_of vault.old) self.old }
        ensures ready { IsReady (V.view_of vault.new) self.new }
        ensures answer { (out : Option Text) (failed : ℕ) → Answers Closes (scene self.old (V.view_of vault.old) out failed) (scene self.new (V.view_of vault.new) out failed) result }
        ensures cause { (out : Option Text) (failed : ℕ) → Causes None moving (scene self.old (V.view_of vault.old) out failed) (scene self.new (V.view_of vault.new) out failed) result }
        ensures fault { (result ≡ Done) ⊎ ((result ≡ Refused VaultFault) × Rose (V.view_of vault.old).faults (V.view_of vault.new).faults) }
        ensures synced { ClosesSynced self.old.phase result (V.view_of vault.old) (V.view_of vault.new) }
        ensures grows { Within AnyFile AnyName (V.view_of vault.old) (V.view_of vault.new) }
        ensures counted { VaultCounts result (V.view_of vault.old).faults (V.view_of vault.new).faults }
        ensures leaves { moves.Closes (seen self.old) result (seen self.new) }
    {
        self.close(vault)
    }
}
