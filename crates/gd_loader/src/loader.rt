//! Loads the dump that the words name, and says how that ended.

ghost use Rattle.std.specs.Prelude.{◌≡◌, ◌≤◌, ◌⊎◌, ◌^◌, None, Some, IfErr, IfOk, length, map, string_bytes};
ghost use Rattle.gd_store.specs.Opened.{StandsFor};
ghost use Rattle.gd_vault.specs.Views.{HasFile, OnlyAsks};
ghost use Rattle.gd_words.specs.Meaning.{IsSized, load_reading};
ghost use Rattle.gd_loader.specs.Held.{AtFile, readable_front};
ghost use Rattle.gd_loader.specs.Runs.{Comes, FileRefused, From, FromInput, IsQuiet, LoadRuns, NoneFailed, Read, Unread, end_of, error_end, how_of, plan_of, scene, stop_end};

use crate::ending::{RunEnd, report};
use crate::held::{Held, hold};
use gd_base::{DbError, Name, Sink, Source};
use gd_dump_reading::DumpKind;
use gd_load::Stop;
use gd_loading::{Ending, LoadEnd, Plan, load};
use gd_store::How;
use gd_vault::{FileId, Vault};
use gd_words::{LoadWords, Refusal, load_words};
use std::alloc::Global;

fn how_of(replace: bool) -> How
    ensures { result ≡ how_of replace }
{
    if replace { How::Replace } else { How::Insert }
}

fn plan_of(words: &LoadWords) -> Plan
    ensures { result ≡ plan_of words.now }
{
    Plan {
        block: words.block,
        cache: words.cache,
        how: how_of(words.replace),
        update: words.update,
    }
}

// How the run ends where the dump or its source ended the load.
fn stop_end(stop: Stop) -> RunEnd
    ensures { result ≡ stop_end stop }
{
    match stop {
        Stop::Refused(kind, place) => RunEnd::Damaged(kind, place),
        Stop::InputFailed => RunEnd::InputFailed,
        Stop::TooLong => RunEnd::TooLong,
        Stop::Starved => RunEnd::Starved,
    }
}

// How the run ends with an error.
fn error_end(error: DbError) -> RunEnd
    ensures { result ≡ error_end error }
{
    match error {
        DbError::OutOfMemory => RunEnd::Starved,
        error => RunEnd::Refused(error),
    }
}

// How the run ends, by how the load ended.
fn end_of(end: LoadEnd) -> RunEnd
    ensures { result ≡ end_of end }
{
    match end {
        LoadEnd::Loaded => RunEnd::Loaded,
        LoadEnd::Head(stop) => stop_end(stop),
        LoadEnd::Unnamed(place) => RunEnd::Damaged(DumpKind::Parameter, place),
        LoadEnd::Opening(error) => error_end(error),
        LoadEnd::Pairs(Ending::Dump(stop)) => stop_end(stop),
        LoadEnd::Pairs(Ending::Db(error)) => error_end(error),
        LoadEnd::Closing(error) => RunEnd::Refused(error),
    }
}

// Loads the dump of standard input.
fn load_input<S: Source, V: Vault>(
    alloc: Global,
    plan: Plan,
    db: Option<Name>,
    input: &mut S,
    vault: &mut V,
) -> RunEnd
    requires { IsSized plan.block plan.cache }
    ensures { FromInput plan db result (scene (S.left input.old) (S.fault_count input.old) (V.view_of vault.old)) (scene (S.left input.new) (S.fault_count input.new) (V.view_of vault.new)) }
{
    end_of(load(alloc, plan, db, None, input, vault))
}

// Finds a file by its name, and reads it.
fn read_file<V: Vault>(alloc: Global, name: &Name, vault: &mut V) -> Result<(FileId, Held), DbError>
    ensures named { IfOk result (λ file. StandsFor (V.view_of vault.old) name.now file.0.0) }
    ensures holds { IfOk result (λ file. AtFile (V.view_of vault.old) file.0.0 (λ x. file.1 ≡ readable_front x)) }
    ensures few { IfOk result (λ file. length file.1 ≤ 2 ^ 32) }
    ensures asks { OnlyAsks (V.view_of vault.old) (V.view_of vault.new) }
    ensures answered { IfOk result (λ _. (V.view_of vault.new).faults ≡ (V.view_of vault.old).faults) }
    ensures refused { IfErr result (λ e. FileRefused e name.now (V.view_of vault.old) (V.view_of vault.new)) }
{
    match vault.lookup(name) {
        Ok(Some(f)) => match hold(alloc, f, vault) {
            Ok(held) => Ok((f, held)),
            Err(error) => Err(error),
        },
        Ok(None) => Err(DbError::Absent),
        Err(_) => Err(DbError::VaultFault),
    }
}

// Loads the dump that stands in a file.
fn load_file<V: Vault>(
    alloc: Global,
    plan: Plan,
    db: Option<Name>,
    file: &Name,
    vault: &mut V,
) -> RunEnd
    requires { IsSized plan.block plan.cache }
    ensures { Unread file.now result (V.view_of vault.old) (V.view_of vault.new) ⊎ Read plan db file.now result (V.view_of vault.old) (V.view_of vault.new) }
{
    match read_file(alloc, file, vault) {
        Ok((f, held)) => {
            let mut held = held;
            end_of(load(alloc, plan, db, Some(f), &mut held, vault))
        }
        Err(error) => error_end(error),
    }
}

// Loads the dump that the words mean.
fn load_meant<S: Source, V: Vault>(
    alloc: Global,
    words: LoadWords,
    input: &mut S,
    vault: &mut V,
) -> RunEnd
    requires { IsSized words.block words.cache }
    ensures { From words.input (plan_of words) words.db result (scene (S.left input.old) (S.fault_count input.old) (V.view_of vault.old)) (scene (S.left input.new) (S.fault_count input.new) (V.view_of vault.new)) }
{
    let plan = plan_of(&words);
    let LoadWords {
        input: file,
        db,
        ..
    } = words;
    match file {
        None => load_input(alloc, plan, db, input, vault),
        Some(file) => load_file(alloc, plan, db, &file, vault),
    }
}

// Loads the dump that the words name, unless they are refused.
fn load_by_words<S: Source, V: Vault>(
    alloc: Global,
    words: &[String],
    input: &mut S,
    vault: &mut V,
) -> RunEnd
    ensures { Comes (load_reading (map string_bytes words.now)) result (scene (S.left input.old) (S.fault_count input.old) (V.view_of vault.old)) (scene (S.left input.new) (S.fault_count input.new) (V.view_of vault.new)) }
{
    match load_words(alloc, words) {
        Ok(meant) => load_meant(alloc, meant, input, vault),
        Err(Refusal::Usage) => RunEnd::Misused,
        Err(Refusal::Memory) => RunEnd::Starved,
    }
}

/// Runs `gdbm_load` with the words after its name: reads the dump of its FILE or of standard input, stores its pairs in
/// the database, and says on standard error what stood against that. Answers the status: 3 for refused words; 1 for an
/// object that failed, an input that is too long, and a file, a dump or a pair that is refused; 4 for want of memory; 0.
pub fn load_run<S: Source, E: Sink, V: Vault>(
    alloc: Global,
    words: &[String],
    input: &mut S,
    err: &mut E,
    vault: &mut V,
) -> u8
    ensures usage { result ≡ 3 → load_reading (map string_bytes words.now) ≡ None }
    ensures runs { LoadRuns (map string_bytes words.now) result (scene (S.left input.old) (S.fault_count input.old) (V.view_of vault.old)) (scene (S.left input.new) (S.fault_count input.new) (V.view_of vault.new)) (E.fault_count err.old) (E.fault_count err.new) (E.written err.old) (E.written err.new) }
    ensures quiet { IsQuiet result → NoneFailed (scene (S.left input.old) (S.fault_count input.old) (V.view_of vault.old)) (scene (S.left input.new) (S.fault_count input.new) (V.view_of vault.new)) (E.fault_count err.old) (E.fault_count err.new) }
    ensures later { E.fault_count err.old ≤ E.fault_count err.new }
    ensures kept { E.kept err.old err.new }
{
    let end = load_by_words(alloc, words, input, vault);
    report(err, end)
}
