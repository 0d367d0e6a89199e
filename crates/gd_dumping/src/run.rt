//! The run over its words.

ghost use Rattle.std.specs.Prelude.{◌≡◌, ◌≤◌, None, map, string_bytes};
ghost use Rattle.gd_vault.specs.Views.{OnlyAsks};
ghost use Rattle.gd_words.specs.Reads.{ReadsAs};
ghost use Rattle.gd_dumping.specs.Dump.{Counted, DumpEnds, Ends, IsQuiet};
ghost use Rattle.gd_dumping.specs.Words.{reading};

use crate::dump::dump_named;
use crate::ending::{Ending, report};
use gd_base::Sink;
use gd_vault::Vault;
use gd_words::{DumpWords, Refusal, dump_words};
use std::alloc::Global;

// What the words ask for. A second word is refused: dumps go to the output alone.
fn asked_by(alloc: Global, words: &[String]) -> Result<DumpWords, Refusal>
    ensures { ReadsAs result (reading (map string_bytes words.now)) }
{
    let asked = dump_words(alloc, words)?;
    if asked.file.is_some() {
        return Err(Refusal::Usage);
    }
    Ok(asked)
}

// Dumps the file for which the words ask.
fn dump_asked<O: Sink, V: Vault>(
    alloc: Global,
    words: &[String],
    out: &mut O,
    vault: &mut V,
) -> Ending
    ensures ends { Ends result (reading (map string_bytes words.now)) (V.view_of vault.old) (O.written out.old) (O.written out.new) }
    ensures counted { Counted result (V.view_of vault.old).faults (V.view_of vault.new).faults (O.fault_count out.old) (O.fault_count out.new) }
    ensures asks { OnlyAsks (V.view_of vault.old) (V.view_of vault.new) }
    ensures later { O.fault_count out.old ≤ O.fault_count out.new }
    ensures kept { O.kept out.old out.new }
{
    match asked_by(alloc, words) {
        Ok(asked) => dump_named(alloc, asked.form, &asked.db, out, vault),
        Err(Refusal::Usage) => Ending::Misused,
        Err(Refusal::Memory) => Ending::Starved,
    }
}

/// Dumps the file for which the words ask on `out`, says on `err` how that ended, and answers the status: 0 for a whole
/// dump, 3 for refused words, 4 for want of memory, else 1.
pub fn dump_by_words<O: Sink, E: Sink, V: Vault>(
    alloc: Global,
    words: &[String],
    out: &mut O,
    err: &mut E,
    vault: &mut V,
) -> u8
    // The words are refused. Want of memory may come in reading them, so they may be refused under another status.
    ensures usage { result ≡ 3 → reading (map string_bytes words.now) ≡ None }

    // How the run ended, why, and what was printed and said.
    ensures ends { DumpEnds (map string_bytes words.now) result (V.view_of vault.old) (V.view_of vault.new) (O.fault_count out.old) (O.fault_count out.new) (O.written out.old) (O.written out.new) (E.fault_count err.old) (E.fault_count err.new) (E.written err.old) (E.written err.new) }

    // No count of faults rose where the whole dump was printed or no memory was found.
    ensures quiet { IsQuiet result → ((V.view_of vault.new).faults ≡ (V.view_of vault.old).faults) × (O.fault_count out.new ≡ O.fault_count out.old) × (E.fault_count err.new ≡ E.fault_count err.old) }

    // The vault is only asked, and no count of faults falls.
    ensures asks { OnlyAsks (V.view_of vault.old) (V.view_of vault.new) }
    ensures later_out { O.fault_count out.old ≤ O.fault_count out.new }
    ensures later_err { E.fault_count err.old ≤ E.fault_count err.new }
    ensures kept_out { O.kept out.old out.new }
    ensures kept_err { E.kept err.old err.new }
{
    let ending = dump_asked(alloc, words, out, vault);
    report(err, ending)
}
