//! What answers the commands of a script.

ghost use Rattle.std.specs.Prelude.{◌≡◌};
ghost use Rattle.gd_lang.specs.Limits.{IsProper};
ghost use Rattle.gd_vault.specs.Views.{View};
ghost use Rattle.gd_script.specs.Answers.{Closing, Rules, Steps, scene};

use gd_base::{Clock, Sink};
use gd_lang::Command;
use gd_session::Reply;
use gd_vault::Vault;

/// What answers the commands of a script.
pub trait Interpreter {
    /// What it needs of itself and the vault before each call, and keeps.
    ghost ready: { View → Self → Type 0 };

    /// What its answers and the closing at the end owe.
    ghost rules: { Rules Self };

    /// Answers a command within the limits of the language, and tells the reading of the clock that it took.
    fn answer<V: Vault, C: Clock, O: Sink>(
        &mut self,
        command: &Command,
        vault: &mut V,
        clock: &mut C,
        out: &mut O,
    ) -> (Reply, Option<u64>)
        requires ready { ready (V.view_of vault.old) self.old }
        requires proper { IsProper command.now }
        ensures ready { ready (V.view_of vault.new) self.new }
        ensures steps { Steps rules command.now (scene self.old (V.view_of vault.old) (O.written out.old) (O.fault_count out.old) (C.told clock.old) (C.fault_count clock.old)) (scene self.new (V.view_of vault.new) (O.written out.new) (O.fault_count out.new) (C.told clock.new) (C.fault_count clock.new)) result.0 result.1 }
        ensures clock { rules.clockless → clock.new ≡ clock.old }
        ensures kept { O.kept out.old out.new };

    /// Closes what is open at the end of a run.
    fn finish<V: Vault>(&mut self, vault: &mut V) -> Reply
        requires ready { ready (V.view_of vault.old) self.old }
        ensures ready { ready (V.view_of vault.new) self.new }
        ensures closes { Closing rules self.old self.new (V.view_of vault.old) (V.view_of vault.new) result };
}
