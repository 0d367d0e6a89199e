//! The programs as one call, and the host's objects over which they make it.
#![tactic(auto)]

ghost use Rattle.std.specs.Prelude.{◌≡◌, ◌≤◌, map, string_bytes};
ghost use Rattle.gd_top.specs.Devices.{devices};
ghost use Rattle.gd_top.specs.Run.{IsRefused, Runs};

mod scripting;

use gd_base::{Clock, Sink, Source};
use gd_dumping::dump_by_words;
pub use gd_dumping::{Ending, report};
pub use gd_host::{HostClock, HostSink, HostSource, HostVault, host_words};
use gd_loader::load_run;
pub use gd_loader::{RunEnd as LoadEnd, report as report_load};
pub use gd_script::Turns;
use gd_vault::Vault;
pub use gd_words::Refusal as ToolRefusal;
pub use scripting::refuse;
use scripting::script;
use std::alloc::Global;

/// Which program runs.
#[derive(Clone, Copy, Debug, PartialEq, Eq)]
pub enum Tool {
    /// `gdbmtool [OPTION..] [DB]` answers the commands of its input.
    Gdbmtool,
    /// `gdbm_dump [-H FORM] DB` prints the dump of a database file.
    Dump,
    /// `gdbm_load [OPTION..] FILE [DB]` stores the pairs of a dump in a database.
    Load,
}

/// What a run leaves beside what it wrote.
#[derive(Debug, Drop)]
pub struct Outcome {
    /// The exit status, the first that holds: 3 for refused words; 1 for a device that failed, for an absent or unreadable
    /// file of `gdbm_dump`, for a file, a dump or a pair that `gdbm_load` refuses, or for input that is too long; 4 for want
    /// of memory; 2 for a command of `gdbmtool` that was refused; 0.
    pub status: u8,
    /// The turns of `gdbmtool`, one an answered line; the other programs have none.
    pub turns: Turns,
}

/// Runs a tool with the words after its name.
pub fn run<S: Source, O: Sink, E: Sink, V: Vault, C: Clock>(
    alloc: Global,
    tool: Tool,
    words: &[String],
    input: &mut S,
    out: &mut O,
    err: &mut E,
    vault: &mut V,
    clock: &mut C,
) -> Outcome
    // The words are refused.
    ensures usage { result.status ≡ 3 → IsRefused tool (map string_bytes words.now) }

    // What was printed and said, what became of the vault, and why.
    ensures runs { Runs tool (map string_bytes words.now) result.status result.turns
        (devices (S.left input.old) (S.fault_count input.old) (O.written out.old) (O.fault_count out.old) (E.written err.old) (E.fault_count err.old) (V.view_of vault.old) (C.told clock.old) (C.fault_count clock.old))
        (devices (S.left input.new) (S.fault_count input.new) (O.written out.new) (O.fault_count out.new) (E.written err.new) (E.fault_count err.new) (V.view_of vault.new) (C.told clock.new) (C.fault_count clock.new)) }

    // No count of faults falls.
    ensures later_out { O.fault_count out.old ≤ O.fault_count out.new }
    ensures later_err { E.fault_count err.old ≤ E.fault_count err.new }
    ensures kept_out { O.kept out.old out.new }
    ensures kept_err { E.kept err.old err.new }
{
    match tool {
        Tool::Gdbmtool => {
            let script = script(alloc, words, input, out, err, vault, clock);
            Outcome {
                status: script.status,
                turns: script.turns,
            }
        }
        Tool::Dump => Outcome {
            status: dump_by_words(alloc, words, out, err, vault),
            turns: Turns::new(alloc),
        },
        Tool::Load => Outcome {
            status: load_run(alloc, words, input, err, vault),
            turns: Turns::new(alloc),
        },
    }
}
