//! A session answers the commands of a script.

ghost use Rattle.gd_session.specs.Calls.{IsReady};
ghost use Rattle.gd_script.specs.Sessions.{session_rules};

use crate::interpreter::Interpreter;
use gd_base::{Clock, Sink};
use gd_lang::Command;
use gd_session::{Reply, Session};
use gd_vault::Vault;

impl Interpreter for Session {
    ghost ready = { λ v s. IsReady v s };

    ghost rules = { session_rules };

    fn answer<V: Vault, C: Clock, O: Sink>(
        &mut self,
        command: &Command,
        vault: &mut V,
        clock: &mut C,
        out: &mut O,
    ) -> (Reply, Option<u64>) {
        (self.step(command, vault, clock, out), None)
    }

    fn finish<V: Vault>(&mut self, vault: &mut V) -> Reply {
        Session::finish(self, vault)
    }
}
