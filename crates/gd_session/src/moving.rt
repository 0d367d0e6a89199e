//! The command that opens another database.

ghost use Rattle.std.specs.Prelude.{◌≡◌, ◌≤◌, ℕ, None, Option};
ghost use Rattle.gd_vault.specs.Frame.{Within};
ghost use Rattle.gd_session.specs.Calls.{Answers, AnyFile, AnyName, IsReady, scene};
ghost use Rattle.gd_session.specs.Closing.{ClosesFirst};
ghost use Rattle.gd_session.specs.Counted.{VaultCounts};
ghost use Rattle.gd_session.specs.Due.{Causes, moving};
ghost use Rattle.gd_session.specs.Moves as moves;
ghost use Rattle.gd_session.specs.Proper.{IsProperName};
ghost use Rattle.gd_session.specs.Rows.{Reopens};
ghost use Rattle.gd_session.specs.State.{Text, named, seen};

use crate::Reply;
use crate::closing::close_phase;
use crate::opening::open_named;
use crate::phase::Phase;
use crate::session::Session;
use gd_base::Name;
use gd_vault::Vault;
use std::mem;

// Makes a name the one last used, where there is one.
fn set_name(file: &mut Name, name: &Option<Name>)
    requires { IsProperName name.now }
    ensures { file.new ≡ named name.now file.old }
{
    if let Some(name) = name {
        file.set(name);
    }
}

impl Session {
    /// Answers `open`.
    pub(crate) fn open<V: Vault>(&mut self, name: &Option<Name>, vault: &mut V) -> Reply
        requires ready { IsReady (V.view_of vault.old) self.old }
        requires name { IsProperName name.now }
        ensures ready { IsReady (V.view_of vault.new) self.new }
        ensures grows { Within AnyFile AnyName (V.view_of vault.old) (V.view_of vault.new) }
        ensures answer { (out : Option Text) (failed : ℕ) → Answers (Reopens name.now) (scene self.old (V.view_of vault.old) out failed) (scene self.new (V.view_of vault.new) out failed) result }
        ensures cause { (out : Option Text) (failed : ℕ) → Causes None moving (scene self.old (V.view_of vault.old) out failed) (scene self.new (V.view_of vault.new) out failed) result }
        ensures closes { ClosesFirst self.old.phase self.old.settings.opening (named name.now self.old.settings.file) result (V.view_of vault.old) (V.view_of vault.new) }
        ensures counted { VaultCounts result (V.view_of vault.old).faults (V.view_of vault.new).faults }
        ensures leaves { moves.Reopens name.now (seen self.old) result (seen self.new) }
    {
        set_name(&mut self.settings.file, name);
        let phase = mem::replace(&mut self.phase, Phase::Shut);
        self.last = None;
        if let Err(error) = close_phase(phase, vault) {
            return Reply::Refused(error);
        }
        match open_named(self.alloc, &self.settings, vault) {
            Ok(store) => {
                self.phase = Phase::Open(store);
                Reply::Done
            }
            Err(error) => Reply::Refused(error),
        }
    }
}
