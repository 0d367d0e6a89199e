//! The step of one command.

ghost use Rattle.std.specs.Prelude.{◌≡◌, ◌≤◌};
ghost use Rattle.gd_vault.specs.Frame.{Within};
ghost use Rattle.gd_session.specs.Calls.{AnswersWith, AnyFile, AnyName, IsReady, scene, unasked};
ghost use Rattle.gd_session.specs.Closing.{ClosesIn};
ghost use Rattle.gd_session.specs.Counted.{StepCounts};
ghost use Rattle.gd_session.specs.Due.{CausedBy};
ghost use Rattle.gd_session.specs.Moves.{CommandMoves};
ghost use Rattle.gd_session.specs.Proper.{IsProper};
ghost use Rattle.gd_session.specs.State.{seen};
ghost use Rattle.gd_session.specs.Step.{Stepped};

use crate::Reply;
use crate::printing::say_text;
use crate::request::{Keyed, Request};
use crate::session::Session;
use gd_base::{Clock, Sink};
use gd_lang::Command;
use gd_store::How;
use gd_vault::Vault;

impl Session {
    /// Answers one command, whose names, numbers and values are within the limits of the language, as those that `parse` gives
    /// are. Where the vault tells its content and a database is open and not broken, the session needs that the name last used
    /// stands for the database's file, and that this file is the one that it opened; it keeps this.
    pub fn step<V: Vault, C: Clock, O: Sink>(
        &mut self,
        command: &Command,
        vault: &mut V,
        clock: &mut C,
        out: &mut O,
    ) -> Reply
        requires ready { IsReady (V.view_of vault.old) self.old }
        requires proper { IsProper command.now }
        ensures ready { IsReady (V.view_of vault.new) self.new }
        ensures answer { AnswersWith (Stepped command.now) (scene self.old (V.view_of vault.old) (O.written out.old) (O.fault_count out.old)) (scene self.new (V.view_of vault.new) (O.written out.new) (O.fault_count out.new)) (unasked (C.fault_count clock.old)) result }
        ensures cause { CausedBy command.now (scene self.old (V.view_of vault.old) (O.written out.old) (O.fault_count out.old)) (scene self.new (V.view_of vault.new) (O.written out.new) (O.fault_count out.new)) result }
        ensures closes { ClosesIn command.now self.old result (V.view_of vault.old) (V.view_of vault.new) }
        ensures grows { Within AnyFile AnyName (V.view_of vault.old) (V.view_of vault.new) }
        ensures clock { clock.new ≡ clock.old }
        ensures later { O.fault_count out.old ≤ O.fault_count out.new }
        ensures kept { O.kept out.old out.new }
        ensures counted { StepCounts command.now result (V.view_of vault.old).faults (V.view_of vault.new).faults (O.fault_count out.old) (O.fault_count out.new) }
        ensures leaves { CommandMoves command.now (seen self.old) result (seen self.new) }
    {
        match command {
            Command::Nothing => Reply::Done,
            Command::Open(name) => self.open(name, vault),
            Command::Close => self.close(vault),
            Command::Quit => Reply::Quit,
            Command::Version => say_text(b"GDBM version 1.23\n", out),
            Command::Set(setting) => self.set(setting, vault, out),
            Command::Count => self.answer(&Request::Count, vault, out),
            Command::Fetch(key) => self.answer_key(Keyed::Fetch, key, vault, out),
            Command::First => self.answer(&Request::First, vault, out),
            Command::Next(after) => match after {
                Some(words) => self.answer_key(Keyed::Next, words, vault, out),
                None => self.answer(&Request::Next(None), vault, out),
            },
            Command::List => self.answer(&Request::List, vault, out),
            Command::Store(key, content) => {
                self.answer_pair(How::Replace, key, content, vault, out)
            }
            Command::Insert(key, content) => {
                self.answer_pair(How::Insert, key, content, vault, out)
            }
            Command::Delete(key) => self.answer_key(Keyed::Delete, key, vault, out),
            Command::Fill(start, count) => {
                self.answer(&Request::Fill(*start, *count), vault, out)
            }
        }
    }
}
